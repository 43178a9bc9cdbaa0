mod matching;
mod numbers;
mod plan;
mod range;
mod reserve;
mod uniform;
mod vickrey;
