// What is published.
use crate::Outputs;

/// The outputs after a number of commits; `None` where no record is kept then.
#[derive(Drop)]
pub struct Seen {
    pub commit: u64,
    pub outputs: Option<Outputs>,
}

impl Seen {
    ghost use Rattle.std.specs.Prelude.{◌≡◌};
    ghost use Rattle.psac_publish.specs.History.{nothing};

    /// What is seen before anything is published.
    pub fn nothing() -> Seen
        ensures { result ≡ nothing }
    {
        Seen {
            commit: 0,
            outputs: None,
        }
    }

    /// A copy.
    pub fn again(&self) -> Seen
        ensures { result ≡ self.now }
    {
        let outputs = match &self.outputs {
            Some(outputs) => Some(outputs.again()),
            None => None,
        };
        Seen {
            commit: self.commit,
            outputs,
        }
    }
}
