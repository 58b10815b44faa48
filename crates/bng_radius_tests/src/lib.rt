//! Questions, grants and records: worked examples of `bng_access`, `bng_acct`, `bng_billing`, `bng_coa`, `bng_failover`, `bng_grant`, `bng_lane`, `bng_rad_client`, `bng_verdict`.
#![tactic(auto)]

#[cfg(test)]
mod access;
#[cfg(test)]
mod acct;
#[cfg(test)]
mod asserts;
#[cfg(test)]
mod billing;
#[cfg(test)]
mod coa;
#[cfg(test)]
mod failover;
#[cfg(test)]
mod grant;
#[cfg(test)]
mod lane;
#[cfg(test)]
mod rad_client;
#[cfg(test)]
mod verdict;
