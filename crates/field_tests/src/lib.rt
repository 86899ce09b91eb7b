//! The tests of `field`, `field_monty`, `field_goldilocks` and `matrix`: values calculated by hand, texts, and JSON.
//!
//! They have a crate of their own, so that the crates that they test are proved once and not twice.
#![tactic(auto)]

#[cfg(test)]
mod baby_bear;
#[cfg(test)]
mod baby_bear4;
#[cfg(test)]
mod batch_inverse;
#[cfg(test)]
mod cases;
#[cfg(test)]
mod chains;
#[cfg(test)]
mod debug;
#[cfg(test)]
mod division;
#[cfg(test)]
mod goldilocks_fields;
#[cfg(test)]
mod integers_modulo_2;
#[cfg(test)]
mod integers_modulo_7;
#[cfg(test)]
mod inverter;
#[cfg(test)]
mod json;
#[cfg(test)]
mod koala_bear;
#[cfg(test)]
mod linear;
#[cfg(test)]
mod matrices;
