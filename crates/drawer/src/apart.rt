// In what two records of one call differ.
ghost use Rattle.std.specs.Prelude.{◌≡◌};
ghost use Rattle.drawer.specs.Apart.{apart_in};

use call::Call;

// What a call asks for, by the fields of its record.
#[derive(Clone, Copy)]
pub enum Field {
    Service,
    Start,
    Length,
    A,
    B,
    C,
}

// The first field, in the record's order, in which they differ; none where they do not.
pub fn apart_in(x: Call, y: Call) -> Option<Field>
    ensures { result ≡ apart_in x y }
{
    if x.service != y.service {
        return Some(Field::Service);
    }
    if x.start != y.start {
        return Some(Field::Start);
    }
    if x.length != y.length {
        return Some(Field::Length);
    }
    if x.a != y.a {
        return Some(Field::A);
    }
    if x.b != y.b {
        return Some(Field::B);
    }
    if x.c != y.c {
        return Some(Field::C);
    }
    None
}
