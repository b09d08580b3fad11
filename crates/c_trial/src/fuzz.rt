//! What `tools/fuzz` calls from C: each reader over one stream in pieces. Each call writes down what the reader made
//! of it, for another program to compare.

mod client;
mod codecs;
mod hellos;
mod host;
mod pieces;
mod transcript;
