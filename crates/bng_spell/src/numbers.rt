//! Numbers, flags and names as fields.
ghost use Rattle.std.specs.Prelude.{◌≡◌, ◌≢◌, ◌<◌, ◌≤◌, ◌^◌, ◌++◌, ◌↔◌, ℕ, List, codes, IfSome, IfNone, IsTrue, true, false};
ghost use Rattle.std.specs.Fmt.{decimal};
ghost use Rattle.bng_spell.specs.Fields.{flag_text, kind_text, role_text, cause_text, fate_text};
ghost use Rattle.bng_base.specs.declared.item.ItemKind.{ItemKind as Kind};
ghost use Rattle.bng_base.specs.declared.outside.Role.{Role as Socket};
ghost use Rattle.bng_base.specs.declared.fate.DropCause.{DropCause as Cause};
ghost use Rattle.bng_spell.specs.Pieces.{IsNoPort, IsNoPortRole, IsUnsigned};
ghost use Rattle.bng_spell.specs.Kept.{IsKind, IsRole};
ghost use Rattle.std.proofs.lemmas.Fmt.{decimal_injective};
ghost use Rattle.bng_spell.specs.FieldNames.{decimal_plain, flag_plain, flag_same, kind_plain, kind_same, role_plain, role_same, fate_plain, fate_same};

use crate::token::Token;
use bng_base::{DropCause, Fate, ItemKind, Role};

/// A number up to this one.
#[derive(Clone, Copy)]
pub(crate) struct Number<const MOST: u64>(pub(crate) u64);

impl<const MOST: u64> Token for Number<MOST> {
    ghost fits = { λ n. (n.0 ≤ MOST) × (n.0 < 2 ^ 64) };

    ghost name = { λ n. decimal n.0 };

    ghost plain = { λ n f. decimal_plain n.0 f.1 };

    ghost injective = { λ m n f g e. let same = decimal_injective m.0 n.0 f.1 g.1 e in λ i. record { 0 = same i } };

    fn of(field: &[u8]) -> Option<Number<MOST>> {
        let number = number_of(field)?;
        if number <= MOST {
            Some(Number(number))
        } else {
            None
        }
    }
}

// The number whose decimal digits these are.
fn number_of(field: &[u8]) -> Option<u64>
    ensures found { IfSome result (λ n. field.now ≡ decimal n) }
    ensures none { IfNone result ((n : ℕ) → n < 2 ^ 64 → field.now ≢ decimal n) }
{
    match str::from_utf8(field) {
        Ok(text) => number_in(text),
        Err(_) => None,
    }
}

// The number whose decimal digits the text is.
fn number_in(text: &str) -> Option<u64>
    ensures found { IfSome result (λ n. text.now ≡ decimal n) }
    ensures none { IfNone result ((n : ℕ) → n < 2 ^ 64 → text.now ≢ decimal n) }
{
    if is_unsigned(text) {
        text.parse::<u64>().ok()
    } else {
        None
    }
}

// The text has no sign and no leading zero.
fn is_unsigned(text: &str) -> bool
    ensures { IsTrue result ↔ IsUnsigned text.now }
{
    let bytes = text.as_bytes();
    if bytes.is_empty() {
        return true;
    }
    bytes[0] != b'+' && (bytes[0] != b'0' || bytes.len() == 1)
}

impl Token for bool {
    ghost fits = { λ _. Unit {0} };

    ghost name = { flag_text };

    ghost plain = { λ b _. flag_plain b };

    ghost injective = { λ b c _ _. flag_same b c };

    fn of(field: &[u8]) -> Option<bool> {
        if field == b"1".as_slice() {
            Some(true)
        } else if field == b"0".as_slice() {
            Some(false)
        } else {
            None
        }
    }
}

// The number of an access port behind its name.
fn port_of(field: &[u8]) -> Option<u8>
    ensures found { IfSome result (λ n. field.now ≡ codes "access" ++ decimal n) }
    ensures none { IfNone result ((n : ℕ) → n < 256 → field.now ≢ codes "access" ++ decimal n) }
{
    if !field.starts_with(b"access") {
        return None;
    }
    let number = number_of(&field[6..])?;
    if number < 256 {
        Some(number as u8)
    } else {
        None
    }
}

impl Token for ItemKind {
    ghost fits = { IsKind };

    ghost name = { kind_text };

    ghost plain = { kind_plain };

    ghost injective = { kind_same };

    fn of(field: &[u8]) -> Option<ItemKind> {
        match port_of(field) {
            Some(port) => Some(ItemKind::Access(port)),
            None => kind_of(field),
        }
    }
}

// The kind that is no access port's.
fn kind_of(field: &[u8]) -> Option<ItemKind>
    ensures found { IfSome result (λ k. IsKind k × (field.now ≡ kind_text k)) }
    ensures none { IfNone result ((k : Kind) → IsNoPort k → field.now ≢ kind_text k) }
{
    if field == b"core".as_slice() {
        Some(ItemKind::Core)
    } else if field == b"tunnel".as_slice() {
        Some(ItemKind::Tunnel)
    } else if field == b"verdict".as_slice() {
        Some(ItemKind::Verdict)
    } else if field == b"change".as_slice() {
        Some(ItemKind::Change)
    } else if field == b"tick".as_slice() {
        Some(ItemKind::Tick)
    } else if field == b"end".as_slice() {
        Some(ItemKind::End)
    } else {
        None
    }
}

impl Token for Role {
    ghost fits = { IsRole };

    ghost name = { role_text };

    ghost plain = { role_plain };

    ghost injective = { role_same };

    fn of(field: &[u8]) -> Option<Role> {
        match port_of(field) {
            Some(port) => Some(Role::Access(port)),
            None => role_of(field),
        }
    }
}

// The role that is no access port's.
fn role_of(field: &[u8]) -> Option<Role>
    ensures found { IfSome result (λ r. IsRole r × (field.now ≡ role_text r)) }
    ensures none { IfNone result ((r : Socket) → IsNoPortRole r → field.now ≢ role_text r) }
{
    if field == b"core".as_slice() {
        Some(Role::Core)
    } else if field == b"tunnel".as_slice() {
        Some(Role::Tunnel)
    } else if field == b"auth".as_slice() {
        Some(Role::Auth)
    } else if field == b"acct".as_slice() {
        Some(Role::Acct)
    } else if field == b"coa".as_slice() {
        Some(Role::Coa)
    } else if field == b"control".as_slice() {
        Some(Role::Control)
    } else {
        None
    }
}

impl Token for Fate {
    ghost fits = { λ _. Unit {0} };

    ghost name = { fate_text };

    ghost plain = { λ f _. fate_plain f };

    ghost injective = { λ f g _ _. fate_same f g };

    fn of(field: &[u8]) -> Option<Fate> {
        if field == b"forwarded".as_slice() {
            Some(Fate::Forwarded)
        } else if field == b"consumed".as_slice() {
            Some(Fate::Consumed)
        } else {
            let cause = cause_of(field)?;
            Some(Fate::Dropped(cause))
        }
    }
}

// The cause of this name.
fn cause_of(field: &[u8]) -> Option<DropCause>
    ensures found { IfSome result (λ c. field.now ≡ cause_text c) }
    ensures none { IfNone result ((c : Cause) → field.now ≢ cause_text c) }
{
    if field == b"malformed".as_slice() {
        Some(DropCause::Malformed)
    } else if field == b"nosession".as_slice() {
        Some(DropCause::NoSession)
    } else if field == b"notopen".as_slice() {
        Some(DropCause::NotOpen)
    } else if field == b"expired".as_slice() {
        Some(DropCause::Expired)
    } else if field == b"spoofed".as_slice() {
        Some(DropCause::Spoofed)
    } else if field == b"toobig".as_slice() {
        Some(DropCause::TooBig)
    } else if field == b"exceeded".as_slice() {
        Some(DropCause::Exceeded)
    } else if field == b"linkfailed".as_slice() {
        Some(DropCause::LinkFailed)
    } else if field == b"wantofmemory".as_slice() {
        Some(DropCause::WantOfMemory)
    } else {
        None
    }
}
