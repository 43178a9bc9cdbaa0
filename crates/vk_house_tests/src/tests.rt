mod auctions;
mod job;
mod keeper;
