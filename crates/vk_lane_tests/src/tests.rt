mod extractor;
mod numbers;
mod prover;
mod row;
