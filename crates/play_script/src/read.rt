//! The parser of plain lines.
ghost use Rattle.std.specs.Prelude.{◌≡◌, length, IfSome};
ghost use Rattle.params.specs.declared.TheConstants.{IP_MAX_PACKET};
ghost use Rattle.play_script.specs.Asks.{AsksFor};
ghost use Rattle.play_script.specs.Views.{asked_by, IsSoundAsk};

use crate::ask::Ask;
use crate::limit::limit_of;
use crate::settings::is_settings;
use crate::ticks::ticks_of;
use play_show::topic_of;
use request::request_of;

/// Returns the request of a plain line, or `None` if it has none. A plain line has one space between each two words.
/// Its bytes are decoded into `buffer`, which has 65,535 bytes.
pub fn ask_of<'l, 'r>(plain: &'l [u8], buffer: &'r mut [u8]) -> Option<Ask<'l, 'r>>
    requires { length buffer.old ≡ IP_MAX_PACKET }
    ensures asks { AsksFor plain.now (asked_by result) }
    ensures sound { IfSome result IsSoundAsk }
{
    if is_settings(plain) {
        return Some(Ask::Settings(plain));
    }
    if let Some(capture) = play_pcap::ask_of(plain) {
        return Some(Ask::Capture(capture));
    }
    if let Some(topic) = topic_of(plain) {
        return Some(Ask::Show(topic));
    }
    if let Some(count) = ticks_of(plain) {
        return Some(Ask::Ticks(count));
    }
    if let Some((fd, limit)) = limit_of(plain) {
        return Some(Ask::Limit(fd, limit));
    }
    match request_of(plain, buffer) {
        Some(request) => Some(Ask::Call(request)),
        None => None,
    }
}
