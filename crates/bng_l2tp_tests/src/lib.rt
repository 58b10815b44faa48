//! Tunnels and calls: worked examples of `bng_l2tp_call`, `bng_l2tp_reliable`, `bng_l2tp_tunnel`, `bng_lac`, `bng_lns`.
#![tactic(auto)]

#[cfg(test)]
mod asserts;
#[cfg(test)]
mod l2tp_call;
#[cfg(test)]
mod l2tp_reliable;
#[cfg(test)]
mod l2tp_tunnel;
#[cfg(test)]
mod lac;
#[cfg(test)]
mod lns;
