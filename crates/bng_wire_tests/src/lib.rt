//! The octets on the wire: worked examples of `bng_digest`, `bng_ipv4`, `bng_l2tp_wire`, `bng_ppp_wire`, `bng_pppoe_wire`, `bng_radius_wire`.
#![tactic(auto)]

#[cfg(test)]
mod asserts;
#[cfg(test)]
mod digest;
#[cfg(test)]
mod ipv4;
#[cfg(test)]
mod l2tp_wire;
#[cfg(test)]
mod ppp_wire;
#[cfg(test)]
mod pppoe_wire;
#[cfg(test)]
mod radius_wire;
