// Table levels and page types by numbers.
ghost use Rattle.std.specs.Prelude.{◌≡◌};
ghost use Rattle.page_type.specs.PageType.{level_of_kind};
ghost use Rattle.probe_numbers.specs.Levels.{table_level_numbers, type_named, type_numbers};

use crate::eight;
use page_type::PageType;

pub fn level(kind: u32) -> [u64; 8]
    ensures { result ≡ table_level_numbers (level_of_kind kind) }
{
    let Some(l) = page_type::level_of_kind(kind) else {
        return [0; 8];
    };
    eight([
        l.kind().into(),
        l.interior_child_type().map_or(0, |t| t.code().into()),
    ])
}

fn type_named(code: u32) -> Option<PageType>
    ensures { result ≡ type_named code }
{
    match code {
        1 => Some(PageType::Writable),
        _ => page_type::level_of_kind(code).map(PageType::PageTable),
    }
}

pub fn page_type(code: u32) -> [u64; 8]
    ensures { result ≡ type_numbers (type_named code) }
{
    let Some(t) = type_named(code) else {
        return [0; 8];
    };
    eight([t.level().map_or(0, |l| l.kind().into())])
}
