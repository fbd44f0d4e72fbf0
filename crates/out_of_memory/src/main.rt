//! What happens if host memory can't be allocated. It boots a stack and a host on an Ethernet, lets a host join a
//! segment, without and with a link, and runs a script of calls on sockets and one of calls on chains. Each is repeated
//! if the allocation failed. The test runs the program once for each of its allocations, and lets that one fail: the
//! call has to return `Memory`, with nothing read or written, and the second try has to succeed. The program allocates
//! nothing itself, so at each line that it prints, the number of allocated blocks must be that at the first line.
#![tactic(auto)]

mod streams;

use chain_script::{Sizes, run_chains};
use ether_host::{EtherFault, EtherHost, Link, Mac};
use link_script::{Config, RunFault, Silent, run};
use net_stack::{BootFault, Stack};
use segment::{JoinFault, Segment};
use std::alloc::Global;
use std::io;
use streams::{Counted, Page};

const MACHINE: Config = Config {
    addr: 0x0a00_0001,
    bcast: 0x0a00_00ff,
    mtu: 1500,
    mbufs: 512,
    clusters: 64,
    first_id: 1,
};

const LINK: Link = Link {
    mac: Mac {
        high: 0x0200,
        low: 1,
    },
    mask: 0xffff_ff00,
    gateway: None,
    probe: false,
};

const POOL: Sizes = Sizes {
    mbufs: 512,
    clusters: 64,
};

/// How a call ended: it succeeded, or an allocation failed and nothing was done.
#[derive(Clone, Copy, PartialEq, Eq)]
enum End {
    Done,
    Refused,
    Wrong,
}

fn boots(alloc: Global) -> End {
    match Stack::boot(alloc, MACHINE) {
        Ok(stack) => {
            let _ = stack.end();
            End::Done
        }
        Err(BootFault::Memory) => End::Refused,
        Err(_) => End::Wrong,
    }
}

fn boots_a_host(alloc: Global) -> End {
    match EtherHost::boot(alloc, MACHINE, LINK) {
        Ok(host) => {
            let _ = host.end();
            End::Done
        }
        Err(EtherFault::Unbooted(BootFault::Memory)) => End::Refused,
        Err(_) => End::Wrong,
    }
}

/// Makes a segment, which a host joins, with this link if there is one, and ends it.
fn joins(alloc: Global, link: Option<Link>) -> End {
    let Ok(mut segment) = Segment::new(alloc, 4) else {
        return End::Refused;
    };
    let joined = match link {
        Some(link) => segment.join_ether(alloc, MACHINE, link),
        None => segment.join(alloc, MACHINE),
    };
    segment.end();
    match joined {
        Ok(()) => End::Done,
        Err(JoinFault::Unbooted(BootFault::Memory)) => End::Refused,
        Err(_) => End::Wrong,
    }
}

/// Reports how a run ended, given its outcome and streams.
fn end_of(outcome: Result<(), RunFault>, reader: &Counted, writer: &Page, want: &[u8]) -> End {
    match outcome {
        Ok(()) if writer.text() == want => End::Done,
        Err(RunFault::Memory) if reader.reads == 0 && writer.writes == 0 => End::Refused,
        _ => End::Wrong,
    }
}

fn runs(alloc: Global) -> End {
    let mut reader = Silent(Counted::new(b"socket\nmbstat\n"));
    let mut writer = Silent(Page::new());
    let outcome = run(alloc, MACHINE, &mut reader, &mut writer);
    let want = b"ok 3\nmbufs 512/512 clusters 64/64 refs 0 most 0\n";
    end_of(outcome, &reader.0, &writer.0, want)
}

fn runs_chains(alloc: Global) -> End {
    let mut reader = Silent(Counted::new(b"user 0 6869\nshow 0\n"));
    let mut writer = Silent(Page::new());
    let outcome = run_chains(alloc, POOL, &mut reader, &mut writer);
    end_of(outcome, &reader.0, &writer.0, b"ok\nlen 2 P2\n")
}

/// What allocates host memory.
#[derive(Clone, Copy)]
enum Call {
    Boot,
    BootHost,
    Join,
    JoinEther,
    Run,
    RunChains,
}

impl Call {
    fn make(self, alloc: Global) -> End {
        match self {
            Call::Boot => boots(alloc),
            Call::BootHost => boots_a_host(alloc),
            Call::Join => joins(alloc, None),
            Call::JoinEther => joins(alloc, Some(LINK)),
            Call::Run => runs(alloc),
            Call::RunChains => runs_chains(alloc),
        }
    }

    /// The report on it; it's made again if an allocation failed.
    fn report(self, alloc: Global) -> &'static str {
        match self.make(alloc) {
            End::Done => "succeeds",
            End::Wrong => "goes wrong",
            End::Refused => match self.make(alloc) {
                End::Done => "is refused, and succeeds then",
                End::Refused | End::Wrong => "is refused, and goes wrong then",
            },
        }
    }
}

fn main(rt: HostRuntime) -> io::Result<()> {
    let alloc = rt.alloc();
    println!(rt; "nothing is asked for yet")?;
    println!(rt; "Stack::boot {}", Call::Boot.report(alloc))?;
    println!(rt; "EtherHost::boot {}", Call::BootHost.report(alloc))?;
    println!(rt; "Segment::join {}", Call::Join.report(alloc))?;
    println!(rt; "Segment::join_ether {}", Call::JoinEther.report(alloc))?;
    println!(rt; "run {}", Call::Run.report(alloc))?;
    println!(rt; "run_chains {}", Call::RunChains.report(alloc))?;
    Ok(())
}
