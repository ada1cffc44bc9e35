//! The table of fields, and the fields of a region looked up by it. Every function is equal to a rule of `rules`; `header` is how many
//! header bytes a length counts, and `places` is the region's index.

#![tactic(auto)]

ghost use Rattle.std.specs.Prelude.{◌≡◌, ◌+◌, ◌*◌, ◌^◌, ◌≤◌, ◌<◌};
ghost use Rattle.rules.specs.Limits.{field_types};
ghost use Rattle.rules.specs.Bytes.{swapped};
ghost use Rattle.rules.specs.Fields.{rule_of, field, given, is_absent, value, right, has_user, field_right, fields_right};
ghost use Rattle.tlv.specs.Index.{Indexed};

use rules::{FIELD_TYPES, FieldRule, Found};
use tlv::Places;
use wire::Halves;

mod region;

pub use region::Fields;

// The types of the fields: numbers, as a region has them and as `encoding` goes over them.
pub const TBL: u32 = 1;

pub const PRIORITY: u32 = 2;

pub const HARDTIME: u32 = 3;

pub const IDLETIME: u32 = 4;

pub const COOKIE: u32 = 5;

pub const IN_PPORT: u32 = 6;

pub const IN_PPORT_MASK: u32 = 7;

pub const OUT_PPORT: u32 = 8;

pub const GOTO_TBL: u32 = 9;

pub const GROUP_ID: u32 = 10;

pub const GROUP_ID_LOWER: u32 = 11;

pub const GROUP_COUNT: u32 = 12;

pub const GROUP_IDS: u32 = 13;

pub const VLAN_ID: u32 = 14;

pub const NEW_VLAN_ID: u32 = 19;

pub const ETHERTYPE: u32 = 23;

pub const DST_MAC: u32 = 24;

pub const SRC_MAC: u32 = 26;

pub const DST_IP: u32 = 36;

pub const DST_IP_MASK: u32 = 37;

pub const DST_IPV6: u32 = 38;

pub const DST_IPV6_MASK: u32 = 39;

pub const POP_VLAN: u32 = 43;

// Who reads a CMD_INFO, a bit each, as the rows of the table hold sets of them: flow add and mod by table, of table 30 by the family of its
// addresses too; flow del; group add and mod of type 0, of type 2, and of types 3 and 4; group del.
pub const FLOW_0: u16 = 1;

pub const FLOW_10: u16 = 2;

pub const FLOW_50: u16 = 4;

pub const FLOW_DEL: u16 = 8;

pub const GROUP_0: u16 = 16;

pub const GROUP_MANY: u16 = 32;

pub const GROUP_DEL: u16 = 64;

pub const FLOW_20: u16 = 128;

pub const FLOW_30_V4: u16 = 256;

pub const FLOW_30_V6: u16 = 512;

pub const GROUP_2: u16 = 1024;

const FLOW_30: u16 = FLOW_30_V4 | FLOW_30_V6;

const FLOW_ANY: u16 = FLOW_0 | FLOW_10 | FLOW_20 | FLOW_30 | FLOW_50;

const GROUP_ANY: u16 = GROUP_0 | GROUP_2 | GROUP_MANY | GROUP_DEL;

// The rows of the table. Types 1 to 62 are also those of the members in GROUP_IDS, which have this width.
const MEMBER: u8 = 4;

const MAC: u8 = 6;

const UNLISTED: FieldRule = FieldRule {
    width: 0,
    uses: 0,
    needs: 0,
    member_width: MEMBER,
};

const TBL_RULE: FieldRule = FieldRule {
    width: 2,
    uses: FLOW_ANY,
    needs: FLOW_ANY,
    member_width: MEMBER,
};

const PRIORITY_RULE: FieldRule = FieldRule {
    width: 4,
    uses: FLOW_ANY,
    needs: FLOW_ANY,
    member_width: MEMBER,
};

const TIME_RULE: FieldRule = FieldRule {
    width: 4,
    uses: FLOW_ANY,
    needs: 0,
    member_width: MEMBER,
};

const COOKIE_RULE: FieldRule = FieldRule {
    width: 8,
    uses: FLOW_ANY | FLOW_DEL,
    needs: FLOW_ANY | FLOW_DEL,
    member_width: MEMBER,
};

const IN_PPORT_RULE: FieldRule = FieldRule {
    width: 4,
    uses: FLOW_0 | FLOW_10 | FLOW_20,
    needs: FLOW_0 | FLOW_10 | FLOW_20,
    member_width: MEMBER,
};

const IN_PPORT_MASK_RULE: FieldRule = FieldRule {
    width: 4,
    uses: FLOW_0,
    needs: FLOW_0,
    member_width: MEMBER,
};

const OUT_PPORT_RULE: FieldRule = FieldRule {
    width: 4,
    uses: GROUP_0,
    needs: GROUP_0,
    member_width: MEMBER,
};

const GOTO_TBL_RULE: FieldRule = FieldRule {
    width: 2,
    uses: FLOW_ANY,
    needs: FLOW_ANY,
    member_width: MEMBER,
};

const GROUP_ID_RULE: FieldRule = FieldRule {
    width: 4,
    uses: FLOW_30 | FLOW_50 | GROUP_ANY,
    needs: GROUP_ANY,
    member_width: MEMBER,
};

const GROUP_ID_LOWER_RULE: FieldRule = FieldRule {
    width: 4,
    uses: GROUP_2,
    needs: GROUP_2,
    member_width: MEMBER,
};

const GROUP_COUNT_RULE: FieldRule = FieldRule {
    width: 2,
    uses: GROUP_MANY,
    needs: GROUP_MANY,
    member_width: MEMBER,
};

const GROUP_IDS_RULE: FieldRule = FieldRule {
    width: 0,
    uses: GROUP_MANY,
    needs: GROUP_MANY,
    member_width: MEMBER,
};

const VLAN_ID_RULE: FieldRule = FieldRule {
    width: 2,
    uses: FLOW_10 | FLOW_20 | FLOW_50 | GROUP_2,
    needs: FLOW_10 | FLOW_20 | FLOW_50 | GROUP_2,
    member_width: MEMBER,
};

const NEW_VLAN_ID_RULE: FieldRule = FieldRule {
    width: 2,
    uses: FLOW_10,
    needs: 0,
    member_width: MEMBER,
};

const ETHERTYPE_RULE: FieldRule = FieldRule {
    width: 2,
    uses: FLOW_20 | FLOW_30,
    needs: FLOW_20 | FLOW_30,
    member_width: MEMBER,
};

const DST_MAC_RULE: FieldRule = FieldRule {
    width: MAC,
    uses: FLOW_20 | FLOW_50 | GROUP_2,
    needs: FLOW_20 | GROUP_2,
    member_width: MEMBER,
};

const SRC_MAC_RULE: FieldRule = FieldRule {
    width: MAC,
    uses: GROUP_2,
    needs: GROUP_2,
    member_width: MEMBER,
};

// An address and its mask.
const IPV4_RULE: FieldRule = FieldRule {
    width: 4,
    uses: FLOW_30_V4,
    needs: FLOW_30_V4,
    member_width: MEMBER,
};

const IPV6_RULE: FieldRule = FieldRule {
    width: 16,
    uses: FLOW_30_V6,
    needs: FLOW_30_V6,
    member_width: MEMBER,
};

const POP_VLAN_RULE: FieldRule = FieldRule {
    width: 1,
    uses: GROUP_0,
    needs: GROUP_0,
    member_width: MEMBER,
};

// No field and no member has type 0, nor one past the table.
const NOTHING: FieldRule = FieldRule {
    width: 0,
    uses: 0,
    needs: 0,
    member_width: 0,
};

// The rules by field type: its width, who uses it and who requires it in CMD_INFO, and the width of the member of that type.
static FIELDS: [FieldRule; 63] = [
    NOTHING,
    TBL_RULE,
    PRIORITY_RULE,
    TIME_RULE,
    TIME_RULE,
    COOKIE_RULE,
    IN_PPORT_RULE,
    IN_PPORT_MASK_RULE,
    OUT_PPORT_RULE,
    GOTO_TBL_RULE,
    GROUP_ID_RULE,
    GROUP_ID_LOWER_RULE,
    GROUP_COUNT_RULE,
    GROUP_IDS_RULE,
    VLAN_ID_RULE,
    UNLISTED,
    UNLISTED,
    UNLISTED,
    UNLISTED,
    NEW_VLAN_ID_RULE,
    UNLISTED,
    UNLISTED,
    UNLISTED,
    ETHERTYPE_RULE,
    DST_MAC_RULE,
    UNLISTED,
    SRC_MAC_RULE,
    UNLISTED,
    UNLISTED,
    UNLISTED,
    UNLISTED,
    UNLISTED,
    UNLISTED,
    UNLISTED,
    UNLISTED,
    UNLISTED,
    IPV4_RULE,
    IPV4_RULE,
    IPV6_RULE,
    IPV6_RULE,
    UNLISTED,
    UNLISTED,
    UNLISTED,
    POP_VLAN_RULE,
    UNLISTED,
    UNLISTED,
    UNLISTED,
    UNLISTED,
    UNLISTED,
    UNLISTED,
    UNLISTED,
    UNLISTED,
    UNLISTED,
    UNLISTED,
    UNLISTED,
    UNLISTED,
    UNLISTED,
    UNLISTED,
    UNLISTED,
    UNLISTED,
    UNLISTED,
    UNLISTED,
    UNLISTED,
];

/// The row of a type. Types past the table are nobody's.
pub fn rule_of(t: u32) -> FieldRule
    ensures { result ≡ rule_of t }
{
    if t < 63 { FIELDS[t as usize] } else { NOTHING }
}

/// What the region holds of a field, at the width of its row.
#[tactic(auto, unfolding(rules::specs::Fields::field))]
pub fn field(s: &[u8], header: usize, places: &Places, t: u32) -> Found
    requires { (Indexed header s.now places.now) × (t < field_types) }
    ensures { result ≡ field header s.now t }
{
    found::found(s, header, places, t, rule_of(t).width)
}

/// The field stands there once, at its width.
#[tactic(auto, unfolding(rules::specs::Fields::given))]
pub fn given(s: &[u8], header: usize, places: &Places, t: u32) -> bool
    requires { (Indexed header s.now places.now) × (t < field_types) }
    ensures { result ≡ given header s.now t }
{
    found::is_at(field(s, header, places, t))
}

/// Nothing of the field stands there, at any width.
pub fn absent(s: &[u8], header: usize, places: &Places, t: u32) -> bool
    requires { (Indexed header s.now places.now) × (t < field_types) }
    ensures { result ≡ is_absent (field header s.now t) }
{
    found::is_absent(field(s, header, places, t))
}

// The number of a field of eight bytes at most.
fn number(s: &[u8], header: usize, places: &Places, t: u32) -> u64
    requires { (Indexed header s.now places.now) × (t < field_types) × ((rule_of t).width ≤ 8) }
    ensures value { result ≡ value header s.now t }
    ensures fits { result < 256 ^ (rule_of t).width }
{
    let width = rule_of(t).width;
    found::number_in(s, width, found::found(s, header, places, t, width))
}

/// The number of a field of eight bytes at most, 0 where it is not given.
pub fn value(s: &[u8], header: usize, places: &Places, t: u32) -> u64
    requires { (Indexed header s.now places.now) × (t < field_types) × ((rule_of t).width ≤ 8) }
    ensures { result ≡ value header s.now t }
{
    number(s, header, places, t)
}

/// The number of a field of 16 bytes, which is big-endian, 0 where it is not given.
pub fn wide_value(s: &[u8], header: usize, places: &Places, t: u32) -> Halves
    requires { (Indexed header s.now places.now) × (t < field_types) × ((rule_of t).width ≡ 16) }
    ensures { result.high * 2 ^ 64 + result.low ≡ swapped 16 (value header s.now t) }
{
    found::wide_in(s, field(s, header, places, t))
}

#[tactic(auto, unfolding(rules::specs::Fields::right))]
fn right(needed: bool, f: Found) -> bool
    ensures { result ≡ right needed f }
{
    match f {
        Found::Absent => !needed,
        Found::At(_, _) => true,
        Found::Fault => false,
    }
}

/// Whether a set of users has this one.
#[tactic(auto, unfolding(rules::specs::Fields::has_user))]
pub fn has_user(set: u16, who: u16) -> bool
    ensures { result ≡ has_user set who }
{
    set & who != 0
}

// A field that is used is right; one that is not used is skipped.
#[tactic(auto, unfolding(rules::specs::Fields::field_right, rules::specs::Fields::field))]
fn field_right(s: &[u8], header: usize, places: &Places, who: u16, t: u32) -> bool
    requires { (Indexed header s.now places.now) × (t < field_types) }
    ensures { result ≡ field_right header s.now who t }
{
    let rule = rule_of(t);
    if !has_user(rule.uses, who) {
        return true;
    }
    right(
        has_user(rule.needs, who),
        found::found(s, header, places, t, rule.width),
    )
}

/// No field is missing, repeated or of another width for who reads the region. No type past POP_VLAN is listed.
pub fn fields_right(s: &[u8], header: usize, places: &Places, who: u16) -> bool
    requires { Indexed header s.now places.now }
    ensures { result ≡ fields_right header s.now who }
{
    for t in (0..FIELD_TYPES as u32).rev() {
        if !field_right(s, header, places, who, t) {
            return false;
        }
    }
    true
}
