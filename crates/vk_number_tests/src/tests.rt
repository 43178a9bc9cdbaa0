mod commit;
mod dice;
mod digests;
mod numbers;
mod residue;
mod seq;
mod wire;
