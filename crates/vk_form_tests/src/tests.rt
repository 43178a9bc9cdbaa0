mod files;
mod judging;
