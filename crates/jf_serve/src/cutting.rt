// Bytes are cut into scripts at the lines that begin sessions.
ghost use Rattle.std.specs.Prelude.{◌≡◌, ◌≤◌, ◌<◌, ◌∷◌, [], map, length, Err, IfOk, IfErr, ◌≢◌};
ghost use Rattle.std.specs.Option.{option_map_or};
ghost use Rattle.jf_path.specs.Limits.{max_sessions};
ghost use Rattle.jf_io.specs.Lines.{lines};
ghost use Rattle.jf_serve.specs.SessionScripts.{cut_at_sessions, is_session_line, scripts_in};

use crate::line::{cut_line, split_line};
use crate::reading::InputFault;
use crate::scripts::Scripts;
use jf_path::MAX_SESSIONS;
use std::alloc::Global;

/// The scripts of an input, unless there are more than `MAX_SESSIONS`.
pub(crate) fn cut_input(alloc: Global, input: &[u8]) -> Result<Scripts, InputFault>
    ensures number { IfOk result (λ scripts. (1 ≤ length scripts) × (length scripts ≤ max_sessions)) }
    ensures ok { IfOk result (λ scripts. map lines scripts ≡ scripts_in input.now) }
    ensures full { result ≡ Err InputFault.Full → max_sessions < length (scripts_in input.now) }
    ensures unstopped { IfErr result (λ e. e ≢ InputFault.ReadFault) }
{
    let mut scripts = Scripts::new(alloc);
    let mut rest = Some(skip_session_line(input));
    while let Some(bytes) = rest {
        if scripts.len() == MAX_SESSIONS {
            return Err(InputFault::Full);
        }
        let (script, others) = cut_script(bytes);
        scripts.push(alloc, script)?;
        rest = others;
    }
    Ok(scripts)
}

/// The bytes after the first line if that begins a session, and all bytes if not.
fn skip_session_line(input: &[u8]) -> &[u8]
    ensures { cut_at_sessions (lines result.now) ≡ scripts_in input.now }
{
    let Some((line, after)) = cut_line(input) else {
        return input;
    };
    if is_session_line(line) { after } else { input }
}

/// The bytes before the first line that begins a session, and those after that line, if there is one.
fn cut_script(bytes: &[u8]) -> (&[u8], Option<&[u8]>)
    ensures { cut_at_sessions (lines bytes.now) ≡ lines result.0.now ∷ option_map_or (λ rest. cut_at_sessions (lines rest.now)) result.1 [] }
{
    let mut start = 0;
    while start < bytes.len() {
        let (line, after) = split_line(&bytes[start..]);
        if is_session_line(line) {
            return (&bytes[..start], Some(after));
        }
        start = bytes.len() - after.len();
    }
    (bytes, None)
}

/// Whether a line begins a session.
fn is_session_line(line: &[u8]) -> bool
    ensures { result ≡ is_session_line line.now }
{
    line == b"session".as_slice()
}
