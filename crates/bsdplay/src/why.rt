//! Why the packets of a capture were dropped: the subcommand, its options, and the capture that it opens.
use crate::ether::{EtherEnd, mac_of, mask_for};
use crate::first_reading::{Ahead, find_mac, find_refusals, find_vlans, read_ahead};
use crate::from_pcap::{BAD, records_in, report, report_fault};
use crate::link_names::name_of;
use crate::messages::{Shown, fail, fail_on};
use crate::options::{WHY_OPTIONS, with_options};
use crate::records::{Counts, End, Machine, Play, written};
use crate::vlan::{Vlan, vlan_in};
use crate::{NOTHING, UNREAD, USAGE};
use capture::pcap::Why as ClassicWhy;
use capture::{Fault, Records, Why};
use clap::{Arg, ArgAction, ArgMatches, Command};
use ether_host::{EtherFault, Mac};
use net_stack::BootFault;
use play_pcap::{CaptureFault, Range, read_whole};
use play_script::Silent;
use play_why::{Busiest, Judge, Layout, Refusals, broadcast_of};
use script_loop::{Buffer, Source};
use std::alloc::{AllocError, Global};
use std::net::{Ipv4Addr, SocketAddrV4};
use std::{fs, io};

/// Returns the subcommand, with its options.
pub(crate) fn why_command<'a>(alloc: Global) -> Result<Command<'a>, AllocError> {
    let command = Command::new(alloc, "why")
        .about("Say what happens to each packet of a capture, and why it's dropped")
        .arg(
            Arg::new(alloc, "CAPTURE")
                .help("A capture, pcap or pcapng, of any length; '-': standard input")
                .action(ArgAction::Set),
        )?;
    with_options(alloc, command, &WHY_OPTIONS)
}

/// The values of the options.
#[derive(Clone, Copy)]
pub(crate) struct Choice {
    address: Option<u32>,
    broadcast: Option<u32>,
    port: Option<u16>,
    vlan: Option<Vlan>,
    pub(crate) range: Option<Range>,
    pub(crate) all: bool,
    /// Only packets that were dropped.
    pub(crate) dropped: bool,
    /// Only packets from or to this end.
    pub(crate) flow: Option<Flow>,
    /// Whether checksums that were left to the card are filled in.
    pub(crate) offload: bool,
    /// Whether a host on an Ethernet judges, and its hardware address if it was given.
    pub(crate) ether: bool,
    pub(crate) mac: Option<Mac>,
    pub(crate) fail_on: FailOn,
    pub(crate) layout: Layout,
}

/// An end of a flow.
#[derive(Clone, Copy)]
pub(crate) struct Flow {
    pub(crate) address: u32,
    pub(crate) port: u16,
}

/// With what the status is 1.
#[derive(Clone, Copy)]
pub(crate) struct FailOn {
    /// A packet that was dropped and is to blame itself.
    pub(crate) packet: bool,
    /// A packet that was dropped because this stack lacks what it needs.
    pub(crate) stack: bool,
    /// A checksum that was left to the card.
    pub(crate) offload: bool,
    /// A packet that the capture cut.
    pub(crate) cut: bool,
    /// A datagram that isn't completed.
    pub(crate) unfinished: bool,
}

/// Returns the address that an option names.
fn address_in(word: Option<&str>) -> Result<Option<u32>, &'static str> {
    let Some(word) = word else {
        return Ok(None);
    };
    match Ipv4Addr::parse_ascii(word.as_bytes()) {
        Ok(address) => Ok(Some(address.to_bits())),
        Err(_) => Err("--addr and --bcast take an IPv4 address, such as 10.0.0.1"),
    }
}

/// Returns the end that an option names.
fn flow_in(word: Option<&str>) -> Result<Option<Flow>, &'static str> {
    let Some(word) = word else {
        return Ok(None);
    };
    match SocketAddrV4::parse_ascii(word.as_bytes()) {
        Ok(end) => Ok(Some(Flow {
            address: end.ip().to_bits(),
            port: end.port(),
        })),
        Err(_) => Err("--flow takes an address and a port, such as 10.0.0.1:53"),
    }
}

/// Returns with what the status is 1, by a list with commas.
fn fail_on_in(word: Option<&str>) -> Result<FailOn, &'static str> {
    let mut fail_on = FailOn {
        packet: false,
        stack: false,
        offload: false,
        cut: false,
        unfinished: false,
    };
    let Some(word) = word else {
        return Ok(fail_on);
    };
    let mut rest = word;
    for _ in 0..word.len().saturating_add(1) {
        let (what, more) = match rest.split_once(',') {
            Some((what, more)) => (what, Some(more)),
            None => (rest, None),
        };
        match what {
            "packet" => fail_on.packet = true,
            "stack" => fail_on.stack = true,
            "offload" => fail_on.offload = true,
            "cut" => fail_on.cut = true,
            "unfinished" => fail_on.unfinished = true,
            _ => return Err(
                "--fail-on takes packet, stack, offload, cut or unfinished, or several with commas",
            ),
        }
        match more {
            Some(more) => rest = more,
            None => break,
        }
    }
    Ok(fail_on)
}

/// Returns the hardware address that an option names.
fn mac_in(word: Option<&str>, ether: bool) -> Result<Option<Mac>, &'static str> {
    let Some(word) = word else {
        return Ok(None);
    };
    if !ether {
        return Err("--mac goes with --ether");
    }
    match mac_of(word.as_bytes()) {
        Some(mac) => Ok(Some(mac)),
        None => Err("--mac takes the hardware address of a host, such as 02:00:00:00:00:01"),
    }
}

/// Returns the port that an option names.
fn port_in(word: Option<&str>) -> Result<Option<u16>, &'static str> {
    let Some(word) = word else {
        return Ok(None);
    };
    match word.parse::<u16>() {
        Ok(port) if port != 0 => Ok(Some(port)),
        _ => Err("--port takes a number from 1 to 65535"),
    }
}

/// Returns the values of the options, or what is wrong with them.
fn choice_of(found: &ArgMatches<'_>) -> Result<Choice, &'static str> {
    Ok(Choice {
        address: address_in(found.get_str("A"))?,
        broadcast: address_in(found.get_str("B"))?,
        port: port_in(found.get_str("PORT"))?,
        vlan: vlan_in(found.get_str("VLAN"))?,
        range: records_in(found.get_str("N-M"))?,
        all: found.get_flag("all"),
        dropped: found.get_flag("dropped"),
        flow: flow_in(found.get_str("A:P"))?,
        offload: found.get_flag("offload"),
        ether: found.get_flag("ether"),
        mac: mac_in(found.get_str("MAC"), found.get_flag("ether"))?,
        fail_on: fail_on_in(found.get_str("WHAT"))?,
        layout: if found.get_flag("json") {
            Layout::Objects
        } else {
            Layout::Lines
        },
    })
}

/// Prints what is wrong with a capture, and returns the status.
fn print_fault(rt: &HostRuntime, name: &str, fault: Fault) -> io::Result<u8> {
    if let Why::Classic(ClassicWhy::BadLinkType(number)) = fault.why {
        let name = Shown(name);
        let what = name_of(number).unwrap_or("not one that bsdplay knows");
        eprintln!(rt;
            "bsdplay: {name}: {fault}: {what}; docs/captures.md lists the link types that are read"
        )?;
        return Ok(BAD);
    }
    let status = report_fault(rt, name, fault, "why")?;
    Ok(if fault.why == Why::NotRead {
        UNREAD
    } else {
        status
    })
}

/// Prints why not all records were printed, and returns the status.
fn print_end(rt: &HostRuntime, name: &str, end: End) -> io::Result<u8> {
    match end {
        End::Fault(fault) => print_fault(rt, name, fault),
        End::Memory => fail_on(rt, name, "no memory", UNREAD),
        End::Unwritten => fail_on(rt, name, "write failed", UNREAD),
        End::Closed => Ok(UNREAD),
    }
}

/// Prints how many records weren't for the machine.
fn print_others(rt: &HostRuntime, counts: Counts) -> io::Result<()> {
    if counts.elsewhere != 0 || counts.without != 0 || counts.other_vlans != 0 {
        print!(rt; "Records for other machines: {}.", counts.elsewhere)?;
        if counts.other_vlans != 0 {
            print!(rt; " Of other VLANs: {}.", counts.other_vlans)?;
        }
        print!(rt; " Without IPv4: {}", counts.without)?;
        counts.kinds.write_without(&mut rt.stdout())?;
        println!(rt; ".")?;
    }
    Ok(())
}

/// Prints that no record was for the host, and why not, and returns the status.
fn print_nothing(
    rt: &HostRuntime,
    name: &str,
    ours: u32,
    counts: Counts,
    busiest: Option<Busiest>,
) -> io::Result<u8> {
    let (name, address) = (Shown(name), Ipv4Addr::from_bits(ours));
    match busiest {
        Some(busiest) if busiest.address != ours => {
            let other = Ipv4Addr::from_bits(busiest.address);
            eprintln!(rt;
                "bsdplay: {name}: no packet is for {address}: {} of {} datagrams go to {other}",
                busiest.count, busiest.all
            )?;
        }
        _ if counts.other_vlans != 0 => {
            eprintln!(rt;
                "bsdplay: {name}: no packet is for {address} in this VLAN: {} of other VLANs",
                counts.other_vlans
            )?;
        }
        _ if counts.others == 0 => {
            eprintln!(rt; "bsdplay: {name}: no packet is for {address}: no record has IPv4")?;
        }
        _ => eprintln!(rt;
            "bsdplay: {name}: no packet is for {address}: {} for other machines",
            counts.others
        )?,
    }
    Ok(NOTHING)
}

/// Returns the status after all records were judged.
fn status_after(
    rt: &HostRuntime,
    name: &str,
    ours: u32,
    counts: Counts,
    busiest: Option<Busiest>,
) -> io::Result<u8> {
    if counts.fails {
        Ok(BAD)
    } else if counts.heard {
        Ok(0)
    } else {
        print_nothing(rt, name, ours, counts, busiest)
    }
}

/// Plays the records and prints what happened to them, and returns the status. `busiest`: the address to which most
/// datagrams go, if the capture was read ahead.
fn play_all<S: Source>(
    rt: &HostRuntime,
    name: &str,
    records: &mut Records<S>,
    play: &mut Play<'_>,
    busiest: Option<Busiest>,
) -> io::Result<u8> {
    let mut out = rt.stdout();
    let played = play.play_records(records, &mut out);
    let rest = play.put_rest(&mut out);
    if let Err(end) = rest {
        return print_end(rt, name, end);
    }
    match played {
        Ok(()) => {
            if matches!(play.choice.layout, Layout::Lines) {
                print_others(rt, play.counts)?;
            }
            status_after(rt, name, play.ours, play.counts, busiest)
        }
        Err(end) => print_end(rt, name, end),
    }
}

/// Returns the broadcast address of the host's network.
fn broadcast_for(choice: Choice, ours: u32) -> u32 {
    if let Some(broadcast) = choice.broadcast {
        return broadcast;
    }
    match mask_for(ours, None) {
        Some(mask) if choice.ether => ours | !mask,
        _ => broadcast_of(ours),
    }
}

/// Prints why no host on an Ethernet with these addresses booted, and returns the status.
fn print_link_fault(
    rt: &HostRuntime,
    name: &str,
    ours: u32,
    broadcast: u32,
    fault: EtherFault,
) -> io::Result<u8> {
    let text = match fault {
        EtherFault::Unbooted(BootFault::Memory) => return print_end(rt, name, End::Memory),
        EtherFault::BadLink(fault) => fault.text(),
        EtherFault::Unbooted(_) => "bad config",
    };
    let (ours, broadcast) = (Ipv4Addr::from_bits(ours), Ipv4Addr::from_bits(broadcast));
    eprintln!(rt;
        "bsdplay: {ours}: no host on an Ethernet with the broadcast {broadcast}: {text}"
    )?;
    Ok(USAGE)
}

/// Boots the machine that judges for a host: on an Ethernet if the host has a hardware address. On error, returns the
/// status.
fn boot_machine(
    rt: &HostRuntime,
    name: &str,
    choice: Choice,
    ours: u32,
    mac: Option<Mac>,
) -> io::Result<Result<Machine, u8>> {
    let judge = match boot_judge(rt, name, choice, ours)? {
        Ok(judge) => judge,
        Err(status) => return Ok(Err(status)),
    };
    let Some(mac) = mac else {
        return Ok(Ok(Machine { judge, link: None }));
    };
    let broadcast = broadcast_for(choice, ours);
    match EtherEnd::boot(rt.alloc(), ours, broadcast, mac) {
        Ok(link) => Ok(Ok(Machine {
            judge,
            link: Some(link),
        })),
        Err(fault) => {
            judge.end();
            Ok(Err(print_link_fault(rt, name, ours, broadcast, fault)?))
        }
    }
}

/// Prints which machine judges.
fn print_judge(rt: &HostRuntime, choice: Choice) -> io::Result<()> {
    if matches!(choice.layout, Layout::Objects) {
        return Ok(());
    }
    if choice.ether {
        println!(rt; "A host on an Ethernet judges, with ARP and ICMP.\n")
    } else {
        println!(rt;
            "A UDP/IP stack alone judges; --ether lets a host on an Ethernet judge, with ARP and ICMP.\n"
        )
    }
}

/// Boots a judge with this address. On error, returns the status.
fn boot_judge(
    rt: &HostRuntime,
    name: &str,
    choice: Choice,
    ours: u32,
) -> io::Result<Result<Judge, u8>> {
    let broadcast = broadcast_for(choice, ours);
    match Judge::new(rt.alloc(), choice.layout, ours, broadcast, choice.port) {
        Ok(judge) => Ok(Ok(judge)),
        Err(BootFault::Memory) => Ok(Err(print_end(rt, name, End::Memory)?)),
        Err(fault) => {
            let (ours, broadcast) = (Ipv4Addr::from_bits(ours), Ipv4Addr::from_bits(broadcast));
            eprintln!(rt;
                "bsdplay: {ours}: {fault}: it isn't the address of a host whose network has the broadcast {broadcast}"
            )?;
            Ok(Err(USAGE))
        }
    }
}

/// Judges the records by a machine with this address, and returns the status.
fn judge_records<S: Source>(
    rt: &HostRuntime,
    name: &str,
    records: &mut Records<S>,
    choice: Choice,
    host: Host,
) -> io::Result<u8> {
    let Host {
        ours,
        mac,
        refusals,
        is_tagged: _is_tagged,
        vlan,
        busiest,
    } = host;
    if let Err(end) = written(print_judge(rt, choice)) {
        return print_end(rt, name, end);
    }
    let mut machine = match boot_machine(rt, name, choice, ours, mac)? {
        Ok(machine) => machine,
        Err(status) => return Ok(status),
    };
    let status = match Play::over(rt.alloc(), choice, ours, &mut machine, (refusals, vlan)) {
        Ok(mut play) => play_all(rt, name, records, &mut play, busiest),
        Err(_) => print_end(rt, name, End::Memory),
    };
    machine.end();
    status
}

/// The host whose packets are judged.
#[derive(Drop)]
struct Host {
    ours: u32,
    /// Its hardware address, if it's judged as a host on an Ethernet.
    mac: Option<Mac>,
    /// The refusals in the capture, if it was read ahead.
    refusals: Option<Refusals>,
    /// Whether a frame has a VLAN tag, if it was read ahead.
    is_tagged: bool,
    /// Its VLAN, if it's known.
    vlan: Option<Vlan>,
    /// The address to which most datagrams go, if it was read ahead and one of them goes to a host.
    busiest: Option<Busiest>,
}

/// Prints that no packet is judged, since no datagram goes to a host, and returns the status.
fn print_kinds(
    rt: &HostRuntime,
    name: &str,
    ahead: &Ahead,
    fault: Option<Fault>,
    layout: Layout,
) -> io::Result<u8> {
    if let Some(fault) = fault {
        return print_fault(rt, name, fault);
    }
    let mut out = rt.stdout();
    match layout {
        Layout::Objects => ahead.kinds().write_object(&mut out)?,
        Layout::Lines => {
            ahead.kinds().write_all(&mut out)?;
            println!(rt;
                "No UDP datagram goes to the address of a host; --addr A judges all packets to A."
            )?;
        }
    }
    Ok(NOTHING)
}

/// Reads a capture ahead. Without an address in `choice`, chooses the one to which most datagrams go, and prints it.
/// If there is no host to judge for, or on error, returns the status.
fn look_ahead<S: Source>(
    rt: &HostRuntime,
    name: &str,
    records: &mut Records<S>,
    choice: Choice,
) -> io::Result<Result<Host, u8>> {
    let Ok((ahead, fault)) = read_ahead(rt.alloc(), records) else {
        return Ok(Err(print_end(rt, name, End::Memory)?));
    };
    let busiest = ahead.busiest();
    let (is_tagged, vlan) = (ahead.is_tagged, choice.vlan);
    if let Some(ours) = choice.address {
        return Ok(Ok(Host {
            ours,
            mac: choice.mac,
            refusals: Some(ahead.into_refusals()),
            is_tagged,
            vlan,
            busiest,
        }));
    }
    let Some(busiest) = busiest else {
        return Ok(Err(print_kinds(rt, name, &ahead, fault, choice.layout)?));
    };
    let address = Ipv4Addr::from_bits(busiest.address);
    if matches!(choice.layout, Layout::Lines) {
        println!(rt;
            "The machine is {address}, to which {} of {} datagrams go; --addr takes another.",
            busiest.count, busiest.all
        )?;
    }
    Ok(Ok(Host {
        ours: busiest.address,
        mac: choice.mac,
        refusals: Some(ahead.into_refusals()),
        is_tagged,
        vlan,
        busiest: Some(busiest),
    }))
}

/// Judges the records of a source, which is read once.
fn judge_source<S: Source + Drop>(
    rt: &HostRuntime,
    name: &str,
    source: S,
    choice: Choice,
    host: Host,
) -> io::Result<u8> {
    let mut records = Records::new(source, Buffer::new(rt.alloc())?);
    let status = judge_records(rt, name, &mut records, choice, host);
    let (_source, _room) = records.end();
    status
}

/// Reads a source ahead; if there is no host to judge for, or on error, returns the status.
fn look_ahead_in<S: Source + Drop>(
    rt: &HostRuntime,
    name: &str,
    source: S,
    choice: Choice,
) -> io::Result<Result<Host, u8>> {
    let mut records = Records::new(source, Buffer::new(rt.alloc())?);
    let found = look_ahead(rt, name, &mut records, choice);
    let (_source, _room) = records.end();
    found
}

/// Returns the hardware address of a host if it's judged as one on an Ethernet: the one in `choice`, or that which a
/// source shows, which is read again. If no frame shows it, returns the status.
fn mac_for<S: Source + Drop>(
    rt: &HostRuntime,
    name: &str,
    source: S,
    choice: Choice,
    ours: u32,
) -> io::Result<Result<Option<Mac>, u8>> {
    if !choice.ether || choice.mac.is_some() {
        return Ok(Ok(choice.mac));
    }
    let mut records = Records::new(source, Buffer::new(rt.alloc())?);
    let mac = find_mac(&mut records, ours);
    let (_source, _room) = records.end();
    if mac.is_none() {
        let (name, address) = (Shown(name), Ipv4Addr::from_bits(ours));
        eprintln!(rt;
            "bsdplay: {name}: no frame of an Ethernet is from {address} or for it: --mac names its hardware address"
        )?;
        return Ok(Err(USAGE));
    }
    Ok(Ok(mac))
}

/// Chooses the host's VLAN if frames have tags: the one in `choice`, or that of most packets for the host in the first
/// source. Prints it. The refusals are those of this VLAN, by the second source. If there is no memory, returns the
/// status.
fn with_vlan<S: Source + Drop>(
    rt: &HostRuntime,
    name: &str,
    sources: (S, S),
    choice: Choice,
    host: &mut Host,
) -> io::Result<Result<(), u8>> {
    let (first, second) = sources;
    let mut records = Records::new(first, Buffer::new(rt.alloc())?);
    let vlans = find_vlans(rt.alloc(), &mut records, host.ours);
    let (_source, _room) = records.end();
    let Ok(vlans) = vlans else {
        return Ok(Err(print_end(rt, name, End::Memory)?));
    };
    if host.vlan.is_none() {
        host.vlan = vlans.busiest();
    }
    let mut records = Records::new(second, Buffer::new(rt.alloc())?);
    let refusals = find_refusals(rt.alloc(), &mut records, host.vlan);
    let (_source, _room) = records.end();
    let Ok(refusals) = refusals else {
        return Ok(Err(print_end(rt, name, End::Memory)?));
    };
    host.refusals = Some(refusals);
    vlans.write(host.vlan, choice.layout, &mut rt.stdout())?;
    Ok(Ok(()))
}

/// Judges a file of any length, which is read twice, a third time for a hardware address, and twice more for VLANs.
fn judge_file(rt: &HostRuntime, name: &str, choice: Choice) -> io::Result<u8> {
    let not_opened = Err(CaptureFault::NotOpened);
    let Ok(file) = fs::open(rt, name) else {
        return report(rt, name, not_opened);
    };
    let mut host = match look_ahead_in(rt, name, Silent(file), choice)? {
        Ok(host) => host,
        Err(status) => return Ok(status),
    };
    let Ok(file) = fs::open(rt, name) else {
        return report(rt, name, not_opened);
    };
    match mac_for(rt, name, Silent(file), choice, host.ours)? {
        Ok(mac) => host.mac = mac,
        Err(status) => return Ok(status),
    }
    if host.is_tagged && !choice.ether {
        let (Ok(first), Ok(second)) = (fs::open(rt, name), fs::open(rt, name)) else {
            return report(rt, name, not_opened);
        };
        let sources = (Silent(first), Silent(second));
        if let Err(status) = with_vlan(rt, name, sources, choice, &mut host)? {
            return Ok(status);
        }
    }
    let Ok(file) = fs::open(rt, name) else {
        return report(rt, name, not_opened);
    };
    judge_source(rt, name, Silent(file), choice, host)
}

/// Judges standard input: record by record if an address was given, otherwise after all of it was read.
fn judge_input(rt: &HostRuntime, choice: Choice) -> io::Result<u8> {
    let name = "-";
    if let Some(ours) = choice.address {
        if choice.ether && choice.mac.is_none() {
            let text = "--ether needs --mac here, because the records are judged as they come";
            return fail_on(rt, name, text, USAGE);
        }
        let host = Host {
            ours,
            mac: choice.mac,
            refusals: None,
            is_tagged: false,
            vlan: choice.vlan,
            busiest: None,
        };
        return judge_source(rt, name, Silent(rt.stdin()), choice, host);
    }
    let file = match read_whole(rt.alloc(), &mut Silent(rt.stdin())) {
        Ok(file) => file,
        Err(CaptureFault::TooLong) => {
            let text =
                "longer than 16777216 bytes: --addr says for whom packets are judged as they come";
            return fail_on(rt, name, text, USAGE);
        }
        Err(fault) => return report(rt, name, Err(fault)),
    };
    let mut host = match look_ahead_in(rt, name, file.as_slice(), choice)? {
        Ok(host) => host,
        Err(status) => return Ok(status),
    };
    match mac_for(rt, name, file.as_slice(), choice, host.ours)? {
        Ok(mac) => host.mac = mac,
        Err(status) => return Ok(status),
    }
    if host.is_tagged && !choice.ether {
        let sources = (file.as_slice(), file.as_slice());
        if let Err(status) = with_vlan(rt, name, sources, choice, &mut host)? {
            return Ok(status);
        }
    }
    judge_source(rt, name, file.as_slice(), choice, host)
}

/// Prints why packets of the capture named after `why` were dropped, and returns the status.
pub(crate) fn print_why(rt: &HostRuntime, found: &ArgMatches<'_>) -> io::Result<u8> {
    let choice = match choice_of(found) {
        Ok(choice) => choice,
        Err(text) => return fail(rt, text, USAGE),
    };
    if choice.ether && choice.vlan.is_some() {
        let text = "--vlan doesn't go with --ether: its link drops frames with a VLAN tag";
        return fail(rt, text, USAGE);
    }
    let Some(name) = found.get_str("CAPTURE") else {
        return fail(rt, "why takes a capture", USAGE);
    };
    if name == "-" {
        judge_input(rt, choice)
    } else {
        judge_file(rt, name, choice)
    }
}
