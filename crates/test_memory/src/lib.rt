//! Tests of what memory a path asks for, and of long references and components.
#![tactic(auto)]

#[cfg(test)]
mod components;
#[cfg(test)]
mod long;
#[cfg(test)]
mod paths;
#[cfg(test)]
mod scarce;
#[cfg(test)]
mod texts;
