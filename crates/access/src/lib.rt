// The register map: what an access of some width at some offset reaches.

#![tactic(auto)]

ghost use Rattle.std.specs.Prelude.{◌≡◌, ◌+◌, ◌-◌, ◌≤◌};
ghost use Rattle.rules.specs.Answers.{answer_number};
ghost use Rattle.rules.specs.Registers.{register_at, is_wide, upper_of, narrow_at, covered_by, wide_at, access, access_refusal};
ghost use Rattle.access.specs.Shapes.{is_narrow, is_eight};

use rules::{Access, Refusal, Register, RingRegister};

// The register that starts at an offset.
#[tactic(auto, unfolding(rules::specs::Registers::register_at))]
fn register_at(offset: u64) -> Option<Register>
    ensures { result ≡ register_at offset }
{
    match offset {
        0x0000 | 0x0008 => Some(Register::Magic),
        0x0010 => Some(Register::TestReg),
        0x0018 => Some(Register::TestReg64),
        0x0300 => Some(Register::Control),
        0x0304 => Some(Register::PortPhysCount),
        0x0310 => Some(Register::PortPhysLinkStatus),
        0x0318 => Some(Register::PortPhysEnable),
        0x0320 => Some(Register::SwitchId),
        0x1000 => Some(Register::OfRing(0, RingRegister::BaseAddr)),
        0x1008 => Some(Register::OfRing(0, RingRegister::Size)),
        0x100c => Some(Register::OfRing(0, RingRegister::Head)),
        0x1010 => Some(Register::OfRing(0, RingRegister::Tail)),
        0x1014 => Some(Register::OfRing(0, RingRegister::Ctrl)),
        0x1018 => Some(Register::OfRing(0, RingRegister::Credits)),
        _ => None,
    }
}

// Whether a register has 8 bytes.
#[tactic(auto, unfolding(rules::specs::Registers::is_wide))]
fn is_wide(r: Register) -> bool
    ensures { result ≡ is_wide r }
{
    match r {
        Register::Magic
        | Register::TestReg64
        | Register::PortPhysLinkStatus
        | Register::PortPhysEnable
        | Register::SwitchId => true,
        Register::TestReg | Register::Control | Register::PortPhysCount => false,
        Register::OfRing(_, which) => ring::is_wide(which),
    }
}

// The upper half of a register that starts 4 bytes before.
#[tactic(auto, unfolding(rules::specs::Registers::upper_of))]
fn upper_of(before: Option<Register>) -> Access
    ensures { result ≡ upper_of before }
{
    match before {
        Some(r) if is_wide(r) => Access::Upper(r),
        _ => Access::Reserved,
    }
}

// 4 bytes less, or 0: nothing starts before the first register.
fn before(offset: u64) -> u64
    ensures { result ≡ offset - 4 }
{
    offset.saturating_sub(4)
}

// What 4 bytes reach.
#[tactic(auto, unfolding(rules::specs::Registers::narrow_at))]
fn narrow_at(offset: u64) -> Access
    ensures { result ≡ narrow_at (register_at offset) (register_at (offset - 4)) }
{
    match register_at(offset) {
        None => upper_of(register_at(before(offset))),
        Some(r) if is_wide(r) => Access::Lower(r),
        Some(r) => Access::Whole(r),
    }
}

#[tactic(auto, unfolding(rules::specs::Registers::covered_by))]
fn covered_by(after: Option<Register>) -> Access
    ensures { result ≡ covered_by after }
{
    match after {
        None => Access::Reserved,
        Some(_) => Access::NotAllowed,
    }
}

// What 8 bytes reach: a register of 4 among them refuses the access.
#[tactic(auto, unfolding(rules::specs::Registers::wide_at))]
fn wide_at(offset: u64) -> Access
    requires { offset + 8 ≤ 0x2000 }
    ensures { result ≡ wide_at (register_at offset) (register_at (offset + 4)) }
{
    match register_at(offset) {
        None => covered_by(register_at(offset + 4)),
        Some(r) if is_wide(r) => Access::Whole(r),
        Some(_) => Access::NotAllowed,
    }
}

#[tactic(auto, unfolding(crate::specs::Shapes::is_narrow))]
fn is_narrow(offset: u64, width: u64) -> bool
    ensures { result ≡ is_narrow offset width }
{
    (width == 4) & (offset % 4 == 0) & (offset <= 0x1ffc)
}

#[tactic(auto, unfolding(crate::specs::Shapes::is_eight))]
fn is_eight(offset: u64, width: u64) -> bool
    ensures { result ≡ is_eight offset width }
{
    (width == 8) & (offset % 8 == 0) & (offset <= 0x1ff8)
}

pub fn access(offset: u64, width: u64) -> Access
    ensures { result ≡ access offset width }
{
    if is_narrow(offset, width) {
        return narrow_at(offset);
    }
    if is_eight(offset, width) {
        return wide_at(offset);
    }
    Access::NotAllowed
}

/// Whether an access is allowed at all; else it is refused with `AccessNotAllowed`.
#[tactic(auto, unfolding(rules::specs::Registers::access_refusal, rules::specs::Answers::answer_number, rules::specs::Answers::refusal_number))]
pub fn allowed(a: Access) -> Result<(), Refusal>
    ensures { answer_number result ≡ access_refusal a }
{
    match a {
        Access::NotAllowed => Err(Refusal::AccessNotAllowed),
        _ => Ok(()),
    }
}
