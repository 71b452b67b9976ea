//! Field sections: the first bytes of lines, prefixed integers, string literals, and the static
//! table. Tests over the public crate; there is no product code here.
#![tactic(auto)]

#[cfg(test)]
mod field_lines;
#[cfg(test)]
mod field_sections;
#[cfg(test)]
mod first_bytes;
#[cfg(test)]
mod prefixed_integers;
#[cfg(test)]
mod same;
#[cfg(test)]
mod sections;
#[cfg(test)]
mod static_table;
#[cfg(test)]
mod texts;
