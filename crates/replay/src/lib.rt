// What the programs that replay cases share: words read from standard input, the settings of a run made of words, the
// memory that a run is lent, values held against what is wanted, and cases counted and told. Nothing here asks
// anything of its caller, and each result is settled by a definition of specs/. Of what is read specs/Read.antt says
// what is made of it and what of a lent block stays; which bytes come from standard input, and which go to standard
// output, no contract can say.
#![tactic(auto)]

pub mod count;
pub mod found;
pub mod input;
pub mod memory;
pub mod out;
pub mod settings;
pub mod told;
pub mod word;
