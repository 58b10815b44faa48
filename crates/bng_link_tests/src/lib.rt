//! The links of subscribers: worked examples of `bng_auth`, `bng_automaton`, `bng_discovery`, `bng_ipcp`, `bng_lcp`, `bng_ppp`.
#![tactic(auto)]

#[cfg(test)]
mod asserts;
#[cfg(test)]
mod auth;
#[cfg(test)]
mod automaton;
#[cfg(test)]
mod discovery;
#[cfg(test)]
mod ipcp;
#[cfg(test)]
mod judged;
#[cfg(test)]
mod lcp;
#[cfg(test)]
mod ppp;
#[cfg(test)]
mod link_ends;
#[cfg(test)]
mod link_fixtures;
#[cfg(test)]
mod links;
