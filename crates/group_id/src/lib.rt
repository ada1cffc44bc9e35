// A group ID taken apart by shifts and masks. Every function is equal to a rule of `rules`.

#![tactic(auto)]

ghost use Rattle.std.specs.Prelude.{◌≡◌};
ghost use Rattle.rules.specs.Version.{routes};
ghost use Rattle.rules.specs.GroupId.{group_type, group_vlan, group_low, vlan_allowed, has_members, is_routing, group_id_allowed};

pub fn type_of(id: u32) -> u32
    ensures { result ≡ group_type id }
{
    id >> 28
}

pub fn vlan_of(id: u32) -> u16
    ensures { result ≡ group_vlan id }
{
    (id >> 16 & 0xfff) as u16
}

// The port of type 0, the index of types 3 and 4.
pub fn low_of(id: u32) -> u16
    ensures { result ≡ group_low id }
{
    (id & 0xffff) as u16
}

#[tactic(auto, unfolding(rules::specs::GroupId::vlan_allowed))]
pub fn vlan_allowed(v: u16) -> bool
    ensures { result ≡ vlan_allowed v }
{
    (1 <= v) & (v <= 4094)
}

// Groups of this type have members.
#[tactic(auto, unfolding(rules::specs::GroupId::has_members))]
pub fn has_members(t: u32) -> bool
    ensures { result ≡ has_members t }
{
    (t == 3) | (t == 4)
}

// Groups of this type send routed frames on.
#[tactic(auto, unfolding(rules::specs::GroupId::is_routing))]
pub fn is_routing(t: u32) -> bool
    ensures { result ≡ is_routing t }
{
    t == 2
}

// A version has these groups, and the tables that lead to them.
#[tactic(auto, unfolding(rules::specs::Version::routes))]
pub fn routes(version: u16) -> bool
    ensures { result ≡ routes version }
{
    3 <= version
}

// A type that there is in the version, and a VLAN in range where the type has one; the low bits are not looked at.
#[tactic(auto, unfolding(rules::specs::GroupId::group_id_allowed))]
pub fn allowed(version: u16, id: u32) -> bool
    ensures { result ≡ group_id_allowed version id }
{
    let t = type_of(id);
    if is_routing(t) {
        return routes(version);
    }
    ((t == 0) | has_members(t)) & vlan_allowed(vlan_of(id))
}
