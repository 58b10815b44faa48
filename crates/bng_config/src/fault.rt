use bng_base::Listed;
use bng_schema::{Key, Rule};
use std::alloc::AllocFailed;

/// How a text is no configuration: the first rule that it breaks.
#[derive(Drop)]
pub enum Fault {
    /// It is longer than 1,048,576 octets.
    TooLong,
    /// It is not UTF-8 or not TOML.
    NotToml,
    /// It has this name, which is of no table and no key. It is written with its table, and with its place from 1 on where
    /// that is a list, as `pool.2.speed`.
    Unknown(Listed<u8>),
    /// It breaks this rule at this key.
    Broken(Rule, Key),
}

/// Why no configuration was read.
#[derive(Drop)]
pub enum ConfigError {
    /// The text has this fault.
    Refused(Fault),
    /// Memory ran out, which says nothing of the text.
    OutOfMemory,
}

impl<T: Drop> From<AllocFailed<T>> for ConfigError {
    ghost use Rattle.std.specs.Prelude.{◌≡◌};
    ghost use Rattle.bng_config.specs.declared.fault.ConfigError.TheVariants.{OutOfMemory};

    ghost from_gives = { λ _ e. e ≡ OutOfMemory };

    fn from(_error: AllocFailed<T>) -> ConfigError {
        ConfigError::OutOfMemory
    }
}
