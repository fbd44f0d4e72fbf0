//! Laws of the packets that lines describe. Each is a function that does nothing; its contract is the law.
ghost use Rattle.std.specs.Prelude.{◌≡◌, ℕ, ◌<◌, ◌≤◌, ◌%◌, List, None};
ghost use Rattle.flat_model.specs.Packets.Header.{packet, udp};
ghost use Rattle.play_packet.specs.Builds.{IsOwn, datagram_of_form, head_of_form, packet_of, wrong};
ghost use Rattle.play_packet.specs.declared.form.Form.{Form};
ghost use Rattle.play_packet.specs.declared.form.Sum.TheVariants.{Right};

/// A checksum that was made wrong differs from the right one. This also holds if 0 and 65,535 count as the same value,
/// as in a ones' complement sum. It fits into 16 bits, and isn't 0, which would mean "no checksum".
pub fn wrong_sum_law()
    ensures apart { (sum : ℕ) → wrong sum % 65535 ≡ sum % 65535 → ⊥ }
    ensures there { (sum : ℕ) → 0 < wrong sum }
    ensures fits { (sum : ℕ) → wrong sum ≤ 65535 }
{}

/// If a line uses only what this stack supports, its packet is the one that the stack would send: flat_model's `packet`
/// of its `udp`.
pub fn own_packet_law()
    ensures datagram { (form : Form) (sent : List ℕ) → form.udp_len ≡ None → form.udp_sum ≡ Right
        → datagram_of_form form sent
        ≡ udp form.source.ip form.destination.ip form.source.port form.destination.port sent }
    ensures packet { (form : Form) (carried : List ℕ) → IsOwn form
        → packet_of form carried ≡ packet (head_of_form form) carried }
{}
