// The types that the rules and all code share. What document 01 says of them is defined in specs/.

#![tactic(auto)]

// ---- Answer numbers and status codes

// Why a call is refused. `refusal_number` in specs/Answers.antt gives the number of each; a call that is done answers 0.
#[derive(Clone, Copy, Debug, PartialEq, Eq)]
pub enum Refusal {
    AccessNotAllowed = 1,
    ValueNotAllowed = 2,
    RingEmpty = 3,
    CreditsFull = 4,
    DescriptorOutside = 5,
    BufferShort = 6,
    PortNotAllowed = 7,
    NotAFrame = 8,
    ListShort = 9,
    CutShort = 10,
    BadMark = 11,
    BadVersion = 12,
    BadPortCount = 13,
    RecordDisagrees = 14,
    TooFewRecords = 15,
    RoomShort = 16,
}

// How a command ended. `code` in specs/Answers.antt gives document 01's code of each.
#[derive(Clone, Copy, Debug, PartialEq, Eq)]
pub enum Status {
    Ok = 0,
    Enoent = 2,
    Enxio = 6,
    Enomem = 12,
    Eexist = 17,
    Einval = 22,
    Emsgsize = 90,
    Enotsup = 95,
}

// ---- Limits, for code; specs/Limits.antt has them for the rules

// Ports of a device; a group has as many members at most.
pub const MAX_PORTS: u32 = 62;

pub const MAX_MEMBERS: usize = MAX_PORTS as usize;

pub const MAX_CREDITS: u32 = 65536;

// Bytes of a payload.
pub const MAX_PAYLOAD: usize = 4096;

// Numbers of an output, and of a list of outputs: so many for each port.
pub const OUTPUT_NUMBERS: usize = 9;

pub const LIST_NUMBERS: usize = OUTPUT_NUMBERS * MAX_MEMBERS;

// Entries that a table has places for.
pub const MAX_FLOWS: usize = 256;

pub const MAX_GROUPS: usize = 128;

// The types of fields are those below this.
pub const FIELD_TYPES: usize = 44;

// The members of a group.
pub type Members = [u16; MAX_MEMBERS];

// The arrays that hold the places of the tables (specs/Rows.antt): a flow is a row of the first, a group a row of each of the others.
pub const FLOW_WORDS: usize = 22;

pub type FlowRow = [u32; FLOW_WORDS];

pub type FlowRows = [FlowRow; MAX_FLOWS];

pub const HEAD_WORDS: usize = 8;

pub type GroupHead = [u32; HEAD_WORDS];

pub type GroupHeads = [GroupHead; MAX_GROUPS];

pub type GroupMembers = [Members; MAX_GROUPS];

// ---- Terms

// The version that the device obeys and its journals carry (specs/Version.antt).
pub const CURRENT_VERSION: u16 = 3;

// What a journal's header tells, and what its payloads are carried out under: the port count and the version.
#[derive(Clone, Copy, Debug, PartialEq, Eq)]
pub struct Terms {
    pub ports: u32,
    pub version: u16,
}

// ---- Registers

// A ring. `base_latch` is the latch (document 01: hold) of BASE_ADDR.
#[derive(Clone, Copy, Debug, PartialEq, Eq)]
pub struct Ring {
    pub base_addr: u64,
    pub base_latch: u32,
    pub size: u32,
    pub head: u32,
    pub tail: u32,
    pub credits: u32,
}

// All that the device keeps besides its tables. `test_reg` and `test_reg64` are the last values written.
#[derive(Clone, Copy, Debug, PartialEq, Eq)]
pub struct Registers {
    pub switch_id: u64,
    pub links: u64,
    pub enable: u64,
    pub test_reg64: u64,
    pub ports: u32,
    pub enable_latch: u32,
    pub test_latch: u32,
    pub test_reg: u32,
    pub ring: Ring,
}

// The six registers that a ring has.
#[derive(Clone, Copy, Debug, PartialEq, Eq)]
pub enum RingRegister {
    BaseAddr,
    Size,
    Head,
    Tail,
    Ctrl,
    Credits,
}

// The registers of document 01's list: the device's own eight, where Magic is each 8 bytes of 0x0000 to 0x000f, and a ring's six with
// the ring's number.
#[derive(Clone, Copy, Debug, PartialEq, Eq)]
pub enum Register {
    Magic,
    TestReg,
    TestReg64,
    Control,
    PortPhysCount,
    PortPhysLinkStatus,
    PortPhysEnable,
    SwitchId,
    OfRing(u8, RingRegister),
}

// What an access of some width at some offset reaches: a whole register, or half of one that has 8 bytes.
#[derive(Clone, Copy, Debug, PartialEq, Eq)]
pub enum Access {
    NotAllowed,
    Reserved,
    Whole(Register),
    Lower(Register),
    Upper(Register),
}

// ---- Descriptor

// A descriptor's fields that are read.
#[derive(Clone, Copy, Debug, PartialEq, Eq)]
pub struct Descriptor {
    pub buf_addr: u64,
    pub buf_size: u32,
    pub tlv_size: u32,
}

// ---- TLV regions and fields

// One whole TLV of a region: its type, where its value starts, and how long that is.
#[derive(Clone, Copy, Debug, PartialEq, Eq)]
pub struct Tlv {
    pub kind: u32,
    pub start: usize,
    pub size: usize,
}

// What stands at a position of a region: a whole TLV; the region's end; or a fault: bytes that are no whole TLV. Three answers with a rule
// each: an `Option` of a `Result` would nest them.
#[derive(Clone, Copy, Debug, PartialEq, Eq)]
pub enum Step {
    Next(Tlv),
    End,
    Fault,
}

// What a region holds of a type: nothing; one value, by start and length; or a fault: it comes twice or has another width. Three answers with
// a rule each: an `Option` of a `Result` would nest them.
#[derive(Clone, Copy, Debug, PartialEq, Eq)]
pub enum Found {
    Absent,
    At(usize, usize),
    Fault,
}

// A row of the field table: a bit for each user that reads the field of this type in CMD_INFO and for each that requires it; its width there
// (0: a nest), and the width of the member field of this type in GROUP_IDS (0: none). In this order it has no gaps, and a table of such rows
// is stored many bytes at a time.
#[derive(Clone, Copy, Debug, PartialEq, Eq)]
pub struct FieldRule {
    pub uses: u16,
    pub needs: u16,
    pub width: u8,
    pub member_width: u8,
}

// ---- Commands

// What a flow compares, by its table: 0, 10, 20, 30, 50. An address of 32 bits stands in the upper bits of 128, and its mask is the number
// of ones that it begins with (specs/Address.antt).
#[derive(Clone, Copy, Debug, PartialEq, Eq)]
pub enum Match {
    IngressPort {
        in_pport: u32,
        in_pport_mask: u32,
    },
    Vlan {
        in_pport: u32,
        vlan_id: u16,
        new_vlan_id: u16,
    },
    TerminationMac {
        in_pport: u32,
        ethertype: u16,
        dst_mac: u64,
        vlan_id: u16,
    },
    UnicastRouting {
        ethertype: u16,
        address_high: u64,
        address_low: u64,
        prefix: u8,
        has_group: bool,
        group_id: u32,
    },
    Bridging {
        vlan_id: u16,
        has_mac: bool,
        dst_mac: u64,
        has_group: bool,
        group_id: u32,
    },
}

#[derive(Clone, Copy, Debug, PartialEq, Eq)]
pub struct Flow {
    pub cookie: u64,
    pub priority: u32,
    pub hardtime: u32,
    pub idletime: u32,
    pub goto_tbl: u16,
    pub matching: Match,
}

// A group without its members, which stand beside it: POP_VLAN of type 0; the VLAN and the two MACs of type 2, whose one member is its lower
// group; GROUP_COUNT of types 3 and 4.
#[derive(Clone, Copy, Debug, PartialEq, Eq)]
pub struct Group {
    pub id: u32,
    pub pop_vlan: bool,
    pub member_count: u8,
    pub vlan_id: u16,
    pub src_mac: u64,
    pub dst_mac: u64,
}

#[derive(Clone, Copy, Debug, PartialEq, Eq)]
pub enum Command {
    FlowAdd(Flow),
    FlowMod(Flow),
    FlowDel(u64),
    GroupAdd(Group),
    GroupMod(Group),
    GroupDel(u32),
}

// What a payload asks for, or the status that its first fault gives; and the members of its group: their low 16 bits, those past the count 0.
#[derive(Clone, Copy)]
pub struct Decoding {
    pub what: Result<Command, Status>,
    pub members: Members,
}

// ---- Tables

// A stored flow. A field that its table does not have, or that was not given, is 0 and false. `has_mac` and `has_group` stand beside their values
// as the row that C holds has them (`entry_in`, specs/Rows.antt), and in `Match` as in the rules (`stored_flow`, specs/Tables.antt).
#[derive(Clone, Copy, Debug, PartialEq, Eq)]
pub struct FlowEntry {
    pub cookie: u64,
    pub dst_mac: u64,
    pub address_high: u64,
    pub address_low: u64,
    pub priority: u32,
    pub hardtime: u32,
    pub idletime: u32,
    pub in_pport: u32,
    pub in_pport_mask: u32,
    pub group_id: u32,
    pub table: u16,
    pub goto_tbl: u16,
    pub vlan_id: u16,
    pub new_vlan_id: u16,
    pub ethertype: u16,
    pub prefix: u8,
    pub has_mac: bool,
    pub has_group: bool,
}

// A stored group. A member has type 0 and the group's VLAN, so its low 16 bits say which it is; those past the count are 0.
// OUT_PPORT of type 0 is the low 16 bits of the ID. A group of type 2 has its lower group as its one member. What a type does not have is 0.
#[derive(Clone, Copy, Debug, PartialEq, Eq)]
pub struct GroupEntry {
    pub id: u32,
    pub pop_vlan: bool,
    pub member_count: u8,
    pub vlan_id: u16,
    pub src_mac: u64,
    pub dst_mac: u64,
    pub members: Members,
}

// How many places of each table are live: those at the front of its array, in rising order of their key. The others are free.
#[derive(Clone, Copy, Debug, PartialEq, Eq)]
pub struct Counts {
    pub flows: usize,
    pub groups: usize,
}

// The places of the live flows in the order in which they decide, a byte each (specs/Engine.antt). Those past their count mean nothing.
pub type FlowOrder = [u8; MAX_FLOWS];

// Where the flows of tables 10, 20, 30 and 50 begin in that order. Those of table 0 begin at 0.
#[derive(Clone, Copy, Debug, PartialEq, Eq)]
pub struct Firsts {
    pub vlan: usize,
    pub termination: usize,
    pub routing: usize,
    pub bridging: usize,
}

// The small part of a device. The places of its two tables, and the order of its flows, are arrays that whoever holds the device lends to a
// call (specs/Rows.antt, specs/Switch.antt).
#[derive(Clone, Copy, Debug, PartialEq, Eq)]
pub struct Device {
    pub registers: Registers,
    pub counts: Counts,
    pub firsts: Firsts,
}

// ---- Calls

// A call on a device, its numbers as they were handed in: a port of 2^32 + 4 is not port 4. What it borrows (guest memory, frame,
// journal buffer, list of outputs) stands beside it.
#[derive(Clone, Copy, Debug, PartialEq, Eq)]
pub enum Request {
    Read { offset: u64, width: u64 },
    Write { offset: u64, width: u64, value: u64 },
    Link { port: u64, up: bool },
    Process,
    Frame { port: u64 },
    Header,
}
