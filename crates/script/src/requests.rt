// What a line asks for, before a text is open and after.
ghost use Rattle.std.specs.Prelude.{◌≡◌, ℕ, Some, None, MatchResult};
ghost use Rattle.plain.specs.Script.{request_of_line, line_step, refused_at};
ghost use Rattle.plain.specs.declared.calls.Request.TheVariants as request;
ghost use Rattle.lines.specs.Bytes.{bytes_of};
ghost use Rattle.lines.specs.Requests.{map_call};
ghost use Rattle.script.specs.Engines.{no_call};

use lines::hex::Hex;
use lines::reading::read_line;
use plain::calls::{Call, Request};
use plain::faults::{CallFault, LineFault};

// The bytes to open. While no text is open, every other line is refused.
pub(crate) fn read_open<'a>(line: &'a [u8]) -> Result<Hex<'a>, LineFault>
    ensures { MatchResult result (λ h. request_of_line line.now ≡ Some (request.Open (bytes_of h))) (λ f. (i : ℕ) → line_step i None (request_of_line line.now) ≡ (None, refused_at i f)) }
{
    match read_line(line)? {
        Request::Open(bytes) => Ok(bytes),
        Request::Call(_) => Err(LineFault::Call(CallFault::NotAllowed)),
    }
}

// The call. While a text is open, no line may open another.
pub fn read_call<'a>(line: &'a [u8]) -> Result<Call<Hex<'a>>, LineFault>
    ensures { MatchResult result (λ c. request_of_line line.now ≡ Some (request.Call (map_call bytes_of c))) (λ f. no_call (request_of_line line.now) ≡ Some f) }
{
    match read_line(line)? {
        Request::Open(_) => Err(LineFault::Call(CallFault::NotAllowed)),
        Request::Call(call) => Ok(call),
    }
}
