// The keyword of a kind, read at a place of a sheet.
ghost use Rattle.std.specs.Prelude.{◌≡◌, drop};
ghost use Rattle.text.specs.Inner.{field_of};
ghost use Rattle.sheet.specs.Lines.{keyword_at};

// The kind whose keyword stands at this place before a tab, and the place after the tab. A row has its kind as a number, so it is told as one.
// The first byte tells which keywords to try: to try all seven of them, one after the other, takes a tenth more instructions for a sheet.
pub(crate) fn keyword_at(bytes: &[u8], at: usize) -> Option<(u16, usize)>
    ensures { field_of bytes.now result ≡ keyword_at (drop at bytes.now) }
{
    match *bytes.get(at)? {
        b's' => text::text_at(bytes, at, b"skip\t", 0)
            .or_else(|| text::text_at(bytes, at, b"step\t", 1))
            .or_else(|| text::text_at(bytes, at, b"seq\t", 2)),
        b'l' => text::text_at(bytes, at, b"loop\t", 3),
        b'a' => text::text_at(bytes, at, b"async\t", 4),
        b'f' => text::text_at(bytes, at, b"finish\t", 5),
        b'c' => text::text_at(bytes, at, b"call\t", 6),
        _ => None,
    }
}
