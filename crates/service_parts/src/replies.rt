// The replies that services give.
ghost use Rattle.std.specs.Prelude.{◌≡◌, ◌≤◌, length};
ghost use Rattle.apex_model.specs.Outcomes.{success as accepted_with, refusal as refused_for, bare_refusal};

use apex_types::{Bytes, Errno, Reply, ReturnCode, Values, code_of};

/// A reply to a call that was carried out.
pub fn success(values: Values) -> Reply
    ensures { result ≡ accepted_with values }
{
    Reply {
        code: ReturnCode::NoError,
        errno: None,
        values,
    }
}

/// A reply to a call that was refused.
pub fn refusal(errno: Errno) -> Reply
    ensures { result ≡ refused_for errno }
{
    Reply {
        code: code_of(errno),
        errno: Some(errno),
        values: Values::Empty,
    }
}

/// A reply to a call that was refused for a reason without an errno, with values.
pub fn refused_with(code: ReturnCode, values: Values) -> Reply
    ensures { result ≡ bare_refusal code values }
{
    Reply {
        code,
        errno: None,
        values,
    }
}

/// A reply to a call that was refused for a reason without an errno.
pub fn refused(code: ReturnCode) -> Reply
    ensures { result ≡ bare_refusal code Values.Empty }
{
    refused_with(code, Values::Empty)
}

/// The data of a reply: these bytes.
pub fn bytes_of(bytes: &[u8]) -> Bytes
    requires { length bytes.now ≤ 4096 }
    ensures { result ≡ bytes.now }
{
    let mut content = Bytes::new();
    for b in bytes {
        content.push(*b);
    }
    content
}
