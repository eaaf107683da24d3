// "Loading uses a reader that carries the image and its place." It is taken apart for `groups::number_at`; who loads calls `read`.
#![tactic(auto)]

ghost use Rattle.std.specs.Prelude.{◌≡◌, ◌≤◌};
ghost use Rattle.groups.specs.Groups.{found_at};

#[derive(Clone, Copy)]
pub struct Reader<'a> {
    pub image: &'a [u8],
    pub at: usize,
}

pub fn next<'a>(reader: Reader<'a>, left: u32) -> Option<(u32, usize)>
    requires { left ≤ 4 }
    ensures { result ≡ found_at left reader.entry.image.now reader.entry.at }
{
    groups::number_at(reader.image, reader.at, left)
}

pub fn read(image: &[u8], at: usize, left: u32) -> Option<(u32, usize)>
    requires { left ≤ 4 }
    ensures { result ≡ found_at left image.now at }
{
    next(Reader { image, at }, left)
}
