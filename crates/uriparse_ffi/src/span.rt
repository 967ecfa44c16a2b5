//! Where a component of a text begins and ends.
ghost use Rattle.std.specs.Prelude.{◌≡◌, ◌+◌, ◌<◌, ◌^◌, [], length, unwrap_or};
ghost use Rattle.std.specs.Option.{option_copied};
ghost use Rattle.uriparse_text.specs.Bytes.{colon};
ghost use Rattle.uriparse_text.specs.Cuts.{following};
ghost use Rattle.uriparse_ffi.specs.Spans.{span};

/// Where a component begins and ends, in bytes; all zero if there is none.
#[repr(C)]
#[derive(Clone, Copy)]
pub struct UriSpan {
    pub begin: usize,
    pub end: usize,
    /// 1 if the component is present, else 0.
    pub present: u8,
}

const ABSENT: UriSpan = UriSpan {
    begin: 0,
    end: 0,
    present: 0,
};

/// The span of a component that begins at `begin`, if it is present.
pub fn place(begin: usize, component: Option<&[u8]>) -> UriSpan
    requires { begin + length (unwrap_or (option_copied component) []) < 2 ^ 64 }
    ensures { result ≡ span begin (option_copied component.entry) }
{
    match component {
        Some(component) => UriSpan {
            begin,
            end: begin + component.len(),
            present: 1,
        },
        None => ABSENT,
    }
}

/// The span of a component whose delimiter, of one byte, is at `at`, if it is present.
pub fn offset_after(at: usize, component: Option<&[u8]>) -> UriSpan
    requires { at + length (following colon (option_copied component)) < 2 ^ 64 }
    ensures { result ≡ span (at + 1) (option_copied component.entry) }
{
    match component {
        Some(component) => UriSpan {
            begin: at + 1,
            end: at + 1 + component.len(),
            present: 1,
        },
        None => ABSENT,
    }
}

/// The length of a component with its delimiter, of one byte, or 0 if there is none.
pub fn delimited_len(component: Option<&[u8]>) -> usize
    requires { length (following colon (option_copied component)) < 2 ^ 64 }
    ensures { result ≡ length (following colon (option_copied component.entry)) }
{
    match component {
        Some(component) => component.len() + 1,
        None => 0,
    }
}
