//! Files in memory, by name.
ghost use Rattle.std.specs.Prelude.{◌≡◌, ◌≤◌, ◌-◌, length, min, option_map};
ghost use Rattle.text_rules.specs.Outside.{ReadsAt};
ghost use Rattle.pns_io.specs.NamedFiles.{file_of, file_views};

// The bytes of the first file of this name.
pub(crate) fn file_named<'a>(files: &'a [(String, Vec<u8>)], name: &str) -> Option<&'a [u8]>
    ensures { option_map (λ bytes. bytes.now) result ≡ file_of (file_views files.now) name.now }
{
    for file in files {
        if file.0.as_str() == name {
            return Some(file.1.as_slice());
        }
    }
    None
}

// Copies what fits of the file's bytes from the place on, and gives how many it copied.
pub(crate) fn copy_from(file: &[u8], at: u64, into: &mut [u8]) -> usize
    ensures whole { result ≡ min (length into.new) (length file.now - at) }
    ensures reads { ReadsAt file.now at into.new result }
{
    let at = at as usize;
    if at >= file.len() {
        return 0;
    }
    let rest = &file[at..];
    let count = rest.len().min(into.len());
    into[..count].copy_from_slice(&rest[..count]);
    count
}
