//! Laws of the definitions, for callers to cite: each is the contract of a function that does nothing.
ghost use Rattle.std.specs.Prelude.{◌≡◌, ◌++◌, ◌+◌, ◌≤◌, length, codes, List, ℕ, Ok, false, map};
ghost use Rattle.std.specs.List.{AllByRecursion};
ghost use Rattle.flat_model.specs.Machine.Event.{Comes};
ghost use Rattle.flat_model.specs.Scripts.Grammar.{IsLine};
ghost use Rattle.flat_model.specs.Scripts.Texts.{hex_text};
ghost use Rattle.hex.specs.Hex.{IsBytes};
ghost use Rattle.capture.specs.File.{file_header_bytes, header_for, our_header};
ghost use Rattle.capture.specs.Frames.{unpadded};
ghost use Rattle.capture.specs.Records.{Reads};
ghost use Rattle.capture.specs.declared.pcap.link_type.LinkType.{LinkType};
ghost use Rattle.capture.specs.declared.pcap.link_type.LinkType.TheVariants.{Ipv4};
ghost use Rattle.play_pcap.specs.Acts.{act_event};
ghost use Rattle.play_pcap.specs.Events.{played};
ghost use Rattle.play_pcap.specs.Traces.{IsPass, Keeps, Pass, Traced, file_of, passes_bytes};

use capture::pcap::written_is_read;

/// The output for one part of a run and that for the next part are the output for both.
#[tactic(auto, using(crate::proofs::Kept::both_kept))]
pub fn trace_law()
    ensures { (old mid new : Traced) (a b : List ℕ) → Keeps old mid a → Keeps mid new b → Keeps old new (a ++ b) }
{}

/// A file of these packets or frames has exactly these, each whole, in their order.
pub fn read_back_law()
    ensures { (link : LinkType) (ps : List Pass) → AllByRecursion IsPass ps
        → Reads (file_header_bytes (header_for link) ++ passes_bytes ps) (Ok (file_of link ps)) }
{
    written_is_read();
}

/// If a written capture of packets is played, exactly these packets arrive, each without the bytes after its total
/// length.
#[tactic(auto, using(crate::proofs::Back::played_back))]
pub fn played_back_law()
    ensures { (origin number : ℕ) (ps : List Pass) → AllByRecursion IsPass ps
        → map act_event (played false our_header origin number (file_of Ipv4 ps).records)
        ≡ map (λ (p : Pass). Comes (unpadded p.packet)) ps }
{}

/// The line that [`crate::Lines`] writes for a packet requests this packet.
pub fn lines_law()
    ensures { (packet : List ℕ) → IsBytes packet → length packet ≤ 65535
        → IsLine (codes "rx " ++ hex_text packet) (Comes packet) }
{}
