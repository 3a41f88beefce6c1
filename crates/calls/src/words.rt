// A call in words: its number, what it names and its numbers; and, by its number, how its words stand in a line.
ghost use Rattle.std.specs.Prelude.{◌≡◌, [], ◌∷◌, Some};
ghost use Rattle.calls.specs.Words.{Small, numbers_in, fields_of, framed, frame_of, numbers_only, shape_of};
ghost use Rattle.calls.specs.Shapes.{shape_told, Narrow};

use crate::{Call, Frame, Names, Shape};

impl Frame {
    fn of(number: u8, names: Names, a: u32, b: u32) -> Frame
        ensures { result ≡ framed number names (a ∷ b ∷ 0 ∷ 0 ∷ 0 ∷ []) }
    {
        Frame {
            number,
            names,
            words: [a, b, 0, 0, 0],
        }
    }
}

impl Call {
    // The words of a call, which are u32.
    #[tactic(auto, unfolding(crate::specs::Behind::asked))]
    pub fn frame(self) -> Frame
        ensures { (result ≡ frame_of self) × Small (numbers_in (fields_of self)) }
    {
        match self {
            Call::Create(p) => Frame::of(1, Names::Nothing, p, 0),
            Call::Delete(t) => Frame::of(2, Names::Task, t.0, 0),
            Call::Suspend(t) => Frame::of(3, Names::Task, t.0, 0),
            Call::Resume(t) => Frame::of(4, Names::Task, t.0, 0),
            Call::SetPriority(t, p) => Frame::of(5, Names::Task, t.0, p),
            Call::Delay(n) => Frame::of(6, Names::Nothing, n, 0),
            Call::Yield => Frame::of(7, Names::Nothing, 0, 0),
            Call::Hold => Frame::of(8, Names::Nothing, 0, 0),
            Call::Release => Frame::of(9, Names::Nothing, 0, 0),
            Call::MakeQueue(c, s) => Frame::of(10, Names::Nothing, c, s),
            Call::MakeMutex => Frame::of(11, Names::Nothing, 0, 0),
            Call::Remove(o) => Frame::of(12, Names::Object, o.0, 0),
            Call::Send(o, w) => Frame::of(13, Names::Queue, o.0, w),
            Call::Receive(o, w) => Frame::of(14, Names::Queue, o.0, w),
            Call::Take(o, w) => Frame::of(15, Names::Mutex, o.0, w),
            Call::Give(o) => Frame::of(16, Names::Mutex, o.0, 0),
            Call::Tick => Frame::of(17, Names::Nothing, 0, 0),
            Call::Advance(n) => Frame::of(18, Names::Nothing, n, 0),
            Call::MakeRecursive => Frame::of(19, Names::Nothing, 0, 0),
            Call::MakeGroup => Frame::of(20, Names::Nothing, 0, 0),
            Call::SetBits(o, b) => Frame::of(21, Names::Group, o.0, b),
            Call::ClearBits(o, b) => Frame::of(22, Names::Group, o.0, b),
            Call::Await(o, m, a, c, w) => Frame {
                number: 23,
                names: Names::Group,
                words: [o.0, m, a, c, w],
            },
        }
    }

    // How its words stand in a line.
    pub fn shape(self) -> Shape
        ensures shape { shape_told (Some result) ≡ shape_of (frame_of self).number }
        ensures narrow { Narrow (Some result) }
    {
        Shape::of(u32::from(self.frame().number)).unwrap()
    }
}

impl Shape {
    // So many numbers and no item.
    fn plain(count: usize) -> Shape
        ensures { shape_told (Some result) ≡ numbers_only count }
    {
        Shape {
            before: count,
            item: false,
            after: 0,
        }
    }

    // None where the number is no call's.
    // "The line reader decides on the call number and groups calls by argument shape with ranges": a list of its own, since a line's words
    // are read before there is a call.
    #[tactic(auto, unfolding(crate::specs::Words::shape_of, lists::specs::Lists::any, lists::specs::Lists::index))]
    pub fn of(number: u32) -> Option<Shape>
        ensures shape { shape_told result ≡ shape_of number }
        ensures narrow { Narrow result }
    {
        match number {
            7..=9 | 11 | 17 | 19..=20 => Some(Shape::plain(0)),
            1..=4 | 6 | 12 | 16 | 18 => Some(Shape::plain(1)),
            5 | 10 | 14..=15 | 21..=22 => Some(Shape::plain(2)),
            23 => Some(Shape::plain(5)),
            13 => Some(Shape {
                before: 1,
                item: true,
                after: 1,
            }),
            _ => None,
        }
    }
}
