//! Worked rows: words, an input, and what the program writes, its line on the notes and its status. Beside them calls of
//! the libraries that no row reaches, each on its happy path and at values from outside.
#![tactic(auto)]

#[cfg(test)]
mod certificates;
#[cfg(test)]
mod examples;
#[cfg(test)]
mod faults;
#[cfg(test)]
mod forms;
#[cfg(test)]
mod hostile;
#[cfg(test)]
mod library;
#[cfg(test)]
mod limits;
#[cfg(test)]
mod matrices;
#[cfg(test)]
mod one_by_one;
#[cfg(test)]
mod outside;
#[cfg(test)]
mod pieces;
#[cfg(test)]
mod pipes;
#[cfg(test)]
mod points;
#[cfg(test)]
mod printing;
#[cfg(test)]
mod reading;
#[cfg(test)]
mod recipes;
#[cfg(test)]
mod refusing;
#[cfg(test)]
mod refutations;
#[cfg(test)]
mod row;
#[cfg(test)]
mod simplifying;
#[cfg(test)]
mod solving;
#[cfg(test)]
mod tableaus;
#[cfg(test)]
mod texts;
#[cfg(test)]
mod trees;
#[cfg(test)]
mod trials;
#[cfg(test)]
mod valuing;
#[cfg(test)]
mod walking;
#[cfg(test)]
mod words;
