//! The root of a path: a drive, as in `C:/`; or `file:`; or a host and its port.
ghost use Rattle.std.specs.Prelude.{◌≡◌};
ghost use Rattle.smap_pairs.specs.Private.PathReading.{is_root_read, root_after, root_in_host, root_in_port};

/// What has been read of a root.
#[derive(Clone, Copy)]
pub enum Root {
    /// Nothing.
    Begins,
    /// One letter, and no `f`.
    Drive,
    F,
    Fi,
    Fil,
    File,
    /// Other bytes of a host, and whether a letter or a `.` is among them.
    Host(bool),
    /// These and a `:`, and whether it ends a root.
    Colon(bool),
    /// And digits.
    Port,
    /// What begins no root.
    Other,
}

impl Root {
    /// What has been read with another byte.
    pub fn after(self, byte: u8) -> Self
        ensures { result ≡ root_after self byte }
    {
        match self {
            Root::Begins => match byte {
                b'f' => Root::F,
                b'A'..=b'Z' | b'a'..=b'z' => Root::Drive,
                _ => Root::in_host(false, byte),
            },
            Root::Drive | Root::File => match byte {
                b':' => Root::Colon(true),
                _ => Root::in_host(true, byte),
            },
            Root::F => match byte {
                b':' => Root::Colon(true),
                b'i' => Root::Fi,
                _ => Root::in_host(true, byte),
            },
            Root::Fi => match byte {
                b':' => Root::Colon(false),
                b'l' => Root::Fil,
                _ => Root::in_host(true, byte),
            },
            Root::Fil => match byte {
                b':' => Root::Colon(false),
                b'e' => Root::File,
                _ => Root::in_host(true, byte),
            },
            Root::Host(is_named) => {
                if is_named && byte == b':' {
                    Root::Colon(false)
                } else {
                    Root::in_host(is_named, byte)
                }
            }
            Root::Colon(_) | Root::Port => Root::in_port(byte),
            Root::Other => Root::Other,
        }
    }

    fn in_host(is_named: bool, byte: u8) -> Self
        ensures { result ≡ root_in_host is_named byte }
    {
        match byte {
            b'A'..=b'Z' | b'a'..=b'z' | b'.' => Root::Host(true),
            b'0'..=b'9' | b'-' => Root::Host(is_named),
            _ => Root::Other,
        }
    }

    fn in_port(byte: u8) -> Self
        ensures { result ≡ root_in_port byte }
    {
        if byte.is_ascii_digit() {
            Root::Port
        } else {
            Root::Other
        }
    }

    /// Whether it is a root, where a `/` stands behind.
    pub fn is_whole(self) -> bool
        ensures { result ≡ is_root_read self }
    {
        match self {
            Root::Colon(is_whole) => is_whole,
            Root::Port => true,
            _ => false,
        }
    }
}
