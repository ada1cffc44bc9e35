//! The calls of a device, each from its line: its numbers are handed over as they are, and its outcome is printed. With a line that is no
//! call, or that cannot be carried out, the device stays as it was.

#![tactic(auto)]

ghost use Rattle.std.specs.Prelude.{◌≤◌, IfOk};

use device::Called;
use lines::{Fault, told};
use rules::{
    Device, FlowOrder, FlowRows, GroupHeads, GroupMembers, LIST_NUMBERS, OUTPUT_NUMBERS, Refusal,
};
use std::io::Write;

/// The most bytes that a record, a frame or a header may have.
pub const ROOM: usize = 65536;

/// The most numbers that a frame's list may have.
pub const LIST: usize = 1024;

/// A device once there is one, its flows and groups and the order of its flows, and room for what a call reads or gives back.
#[derive(Drop)]
pub struct Host {
    pub device: Option<Device>,
    pub flows: FlowRows,
    pub heads: GroupHeads,
    pub members: GroupMembers,
    pub order: FlowOrder,
    pub buffer: [u8; ROOM],
    pub list: [u16; LIST],
}

// How many bytes of the buffer `work` or `header` may use.
fn room(s: &[u8]) -> Result<usize, Fault>
    ensures { IfOk result (λ n. n ≤ 65536) }
{
    let [room] = text::arguments::<1>(s).ok_or(Fault::Line("expected one number, ROOM"))?;
    if (ROOM as u64) < room {
        return Err(Fault::Line("ROOM is at most 65536"));
    }
    Ok(room as usize)
}

// A frame's list: as many numbers as it may need, or LISTLEN.
fn list_length(s: &[u8]) -> Result<usize, Fault>
    ensures { IfOk result (λ n. n ≤ 1024) }
{
    match text::count(s) {
        3 => return Ok(LIST_NUMBERS),
        4 => {}
        _ => return Err(Fault::Line("expected frame PORT HEX [LISTLEN]")),
    }
    let n = text::argument(s, 3).ok_or(Fault::Line("not a number of 64 bits"))?;
    if (LIST as u64) < n {
        return Err(Fault::Line("LISTLEN is at most 1024"));
    }
    Ok(n as usize)
}

// What a call gives: a refused one tells nothing and leaves the device.
fn called(device: Device, outcome: Result<Called, Refusal>) -> Called {
    outcome.unwrap_or(device::quiet(device))
}

impl Host {
    // The device that there is.
    fn made(&self) -> Result<Device, Fault> {
        self.device.ok_or(Fault::Line("no device"))
    }

    // fresh PORTS SWITCH_ID. A refused one leaves the device that was there.
    fn fresh<W: Write>(&mut self, out: &mut W, s: &[u8]) -> Result<(), Fault> {
        let [ports, switch_id] = text::arguments::<2>(s).ok_or(Fault::Line(
            "expected fresh PORTS SWITCH_ID",
        ))?;
        let r = device::fresh(
            ports,
            switch_id,
            &mut self.flows,
            &mut self.heads,
            &mut self.members,
            &mut self.order,
        );
        told::answer(out, answers::answer_number(&r))?;
        self.device = r.ok().or(self.device);
        Ok(())
    }

    // link PORT UP
    fn link<W: Write>(&mut self, out: &mut W, s: &[u8]) -> Result<(), Fault> {
        let device = self.made()?;
        let [port, up] = text::arguments::<2>(s).ok_or(Fault::Line("expected link PORT UP"))?;
        if 1 < up {
            return Err(Fault::Line("UP is 0 or 1"));
        }
        let r = device::link(device, port, up == 1);
        told::answer(out, answers::answer_number(&r))?;
        self.device = Some(called(device, r).device);
        Ok(())
    }

    // read WIDTH OFFSET
    fn read<W: Write>(&mut self, out: &mut W, s: &[u8]) -> Result<(), Fault> {
        let device = self.made()?;
        let [width, offset] = text::arguments::<2>(s).ok_or(Fault::Line(
            "expected read WIDTH OFFSET",
        ))?;
        let r = device::read(device, offset, width);
        told::value(out, answers::answer_number(&r), called(device, r).value)?;
        Ok(())
    }

    // write WIDTH OFFSET VALUE
    fn write<W: Write>(&mut self, out: &mut W, s: &[u8]) -> Result<(), Fault> {
        let device = self.made()?;
        let [width, offset, value] = text::arguments::<3>(s).ok_or(Fault::Line(
            "expected write WIDTH OFFSET VALUE",
        ))?;
        let r = device::write(device, offset, width, value);
        let called = called(device, r);
        told::raised(out, answers::answer_number(&r), called.interrupt)?;
        self.device = Some(called.device);
        Ok(())
    }

    // work ROOM
    fn work<W: Write>(&mut self, out: &mut W, s: &[u8], memory: &mut [u8]) -> Result<(), Fault> {
        let device = self.made()?;
        let room = room(s)?;
        let buffer = &mut self.buffer[..];
        let buffer = &mut buffer[..room];
        let r = device::process(
            device,
            memory,
            buffer,
            &mut self.flows,
            &mut self.heads,
            &mut self.members,
            &mut self.order,
        );
        let called = called(device, r);
        let n = called.written.min(buffer.len());
        told::record(
            out,
            answers::answer_number(&r),
            called.interrupt,
            &buffer[..n],
        )?;
        self.device = Some(called.device);
        Ok(())
    }

    // header ROOM
    fn header<W: Write>(&mut self, out: &mut W, s: &[u8]) -> Result<(), Fault> {
        let device = self.made()?;
        let room = room(s)?;
        let buffer = &mut self.buffer[..];
        let buffer = &mut buffer[..room];
        let r = device::header(device, buffer);
        let n = called(device, r).written.min(buffer.len());
        told::header(out, answers::answer_number(&r), &buffer[..n])?;
        Ok(())
    }

    // frame PORT HEX [LISTLEN]. The buffer holds the frame.
    fn frame<W: Write>(&mut self, out: &mut W, s: &[u8]) -> Result<(), Fault> {
        let device = self.made()?;
        let long = list_length(s)?;
        let port = text::argument(s, 1).ok_or(Fault::Line("not a number of 64 bits"))?;
        let digits = text::word(s, 2);
        let count = hexadecimal::count(digits).ok_or(Fault::Line("malformed bytes"))?;
        let frame = &mut self.buffer[..];
        let frame = &mut frame[..count.min(ROOM)];
        hexadecimal::bytes(digits, frame);
        let list = &mut self.list[..];
        let list = &mut list[..long];
        let r = device::frame(
            device,
            port,
            frame,
            list,
            &self.flows,
            &self.heads,
            &self.members,
            &self.order,
        );
        let outputs = called(device, r).outputs;
        let numbers = OUTPUT_NUMBERS * outputs.min(LIST / OUTPUT_NUMBERS);
        let n = numbers.min(list.len());
        told::outputs(out, answers::answer_number(&r), outputs as u64, &list[..n])?;
        Ok(())
    }

    /// Carries out a line that calls a device, whose guest has this memory.
    pub fn call<W: Write>(
        &mut self,
        out: &mut W,
        s: &[u8],
        memory: &mut [u8],
    ) -> Result<(), Fault> {
        match text::word(s, 0) {
            b"fresh" => self.fresh(out, s),
            b"link" => self.link(out, s),
            b"read" => self.read(out, s),
            b"write" => self.write(out, s),
            b"work" => self.work(out, s, memory),
            b"frame" => self.frame(out, s),
            b"header" => self.header(out, s),
            _ => Err(Fault::Line("no call")),
        }
    }
}
