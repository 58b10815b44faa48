//! The words and the parts that shards and desk are made of, the outside in memory, and the command line: worked examples of `bng_base`, `bng_engine`, `bng_forward`, `bng_meter`, `bng_peer`, `bng_plant`, `bng_pool`, `bng_profile`, `bng_slots`, `bng_spell`, `bng_term`, `bng_turn`, `bng_vlan`, `bng_words`.
#![tactic(auto)]

#[cfg(test)]
mod asserts;
#[cfg(test)]
mod base;
#[cfg(test)]
mod engine;
#[cfg(test)]
mod forward;
#[cfg(test)]
mod meter;
#[cfg(test)]
mod peer;
#[cfg(test)]
mod plant;
#[cfg(test)]
mod pool;
#[cfg(test)]
mod profile;
#[cfg(test)]
mod slots;
#[cfg(test)]
mod spell;
#[cfg(test)]
mod term;
#[cfg(test)]
mod turn;
#[cfg(test)]
mod vlan;
#[cfg(test)]
mod words;
