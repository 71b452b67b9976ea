//! Numbers, readers, writers, IDs, error codes and the Huffman code. Tests over the public
//! crates; there is no product code here.
#![tactic(auto)]

#[cfg(test)]
mod code_numbers;
#[cfg(test)]
mod codes;
#[cfg(test)]
mod huffman;
#[cfg(test)]
mod ids;
#[cfg(test)]
mod readers;
#[cfg(test)]
mod registered_codes;
#[cfg(test)]
mod same;
#[cfg(test)]
mod texts;
#[cfg(test)]
mod varints;
#[cfg(test)]
mod writers;
