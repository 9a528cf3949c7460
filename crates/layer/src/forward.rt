// Which events from below a layer hands on in the step in which they come.
ghost use Rattle.std.specs.Prelude.{◌≡◌};
ghost use Rattle.layer.specs.Forwards.{forwards};

use interface::Event;

// An enum, since a closure would ask of each caller that it may be called.
#[derive(Clone, Copy, PartialEq, Eq, Debug)]
pub enum Forward {
    Issues,
    All,
}

impl Forward {
    pub fn forwards(self, event: Event) -> bool
        ensures { result ≡ forwards self event }
    {
        self == Forward::All || matches!(event, Event::Issue(_))
    }
}
