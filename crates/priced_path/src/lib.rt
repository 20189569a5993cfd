//! The program `price`: it keeps the passing edges of what it reads, and searches for least prices at the end.
//!
//! The vertices that are there are numbered in byte order, and the kept edges become rows of numbers. The search (E. W.
//! Dijkstra, A note on two problems in connexion with graphs, 1959) labels each vertex with its least price. No proof
//! rests on the order of its heap: when no vertex is open any more, the labels are a certificate.
#![tactic(auto)]

mod answer;
mod kept_edge;
mod least;
mod opened;
mod price;
mod rows;

pub use price::PricedProgram;
