//! Tests of the public calls of the language: tokens, parser, printer and checker. They stand apart from the other tests, so
//! that both are proved side by side.
#![tactic(auto)]

#[cfg(test)]
mod check;
#[cfg(test)]
mod lang;
#[cfg(test)]
mod print;
#[cfg(test)]
mod programs;
#[cfg(test)]
mod tokens;
