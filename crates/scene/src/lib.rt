// What the lines of a scene set (document 01, "Proved and printed").
#![tactic(auto)]

ghost use Rattle.std.specs.Prelude.{◌≡◌, set};
ghost use Rattle.layout.specs.Layout.{field_at};
ghost use Rattle.scene.specs.Lent.{held, SameLists};
ghost use Rattle.scene.specs.Scene.{applied, with_field};

use scene_line::Line;

// The field of the image.
const IMAGE: usize = 7;

// A scene in the lists that are lent for it.
#[derive(Drop)]
pub struct Scene<'a> {
    pub numbers: &'a mut [u64],
    pub base: &'a mut [u8],
    pub sup: &'a mut [u8],
}

impl Scene<'_> {
    // Sets what the line says, over what an earlier line set.
    pub fn apply(&mut self, line: Line)
        ensures same_lists { SameLists self.old self.new }
        ensures lists { held self.new ≡ applied (held self.old) line }
    {
        match line {
            Line::Field { field, value } => put_field(self.numbers, field, value),
            Line::Base { position, code } => put(self.base, position, code),
            Line::Super { position, code } => put(self.sup, position, code),
        }
    }
}

// Whether there is an image stands just before the image.
#[tactic(auto, unfolding(crate::specs::Scene::with_field))]
fn put_field(numbers: &mut [u64], field: usize, value: u64)
    ensures { numbers.new ≡ with_field numbers.old field value }
{
    if field == IMAGE {
        put(numbers, IMAGE - 1, 1);
    }
    put(numbers, place_of(field), value);
}

// No line has the field 0.
fn place_of(field: usize) -> usize
    ensures { result ≡ field_at field }
{
    if field < IMAGE {
        field.saturating_sub(1)
    } else {
        field
    }
}

// A place past the list is none. By an index, since nothing is known of a slice after its `get_mut`.
fn put<T: Copy>(xs: &mut [T], place: usize, x: T)
    ensures { xs.new ≡ set xs.old place x }
{
    if place < xs.len() {
        xs[place] = x;
    }
}
