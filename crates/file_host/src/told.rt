// What is told of Saved, beside the bytes: those are what its descriptor accepted.
ghost use Rattle.std.specs.Prelude.{◌≡◌, None, Some, false, true};
ghost use Rattle.long_names.specs.Counting.{counted};

#[derive(Drop)]
pub struct Told {
    pub attaches: u64,
    pub name: Option<Vec<u8>>,
    pub descriptor: Option<u32>,
    pub ended: bool,
}

impl Told {
    pub fn none() -> Told
        ensures attaches { result.attaches ≡ 0 }
        ensures name { result.name ≡ None }
        ensures descriptor { result.descriptor ≡ None }
        ensures ended { result.ended ≡ false }
    {
        Told {
            attaches: 0,
            name: None,
            descriptor: None,
            ended: false,
        }
    }

    // It is to be attached.
    pub fn attaching(&mut self)
        ensures attaches { self.new.attaches ≡ counted self.old.attaches }
        ensures name { self.new.name ≡ None }
        ensures descriptor { self.new.descriptor ≡ self.old.descriptor }
        ensures ended { self.new.ended ≡ self.old.ended }
    {
        self.attaches = self.attaches.saturating_add(1);
        self.name = None;
    }

    // It is.
    pub fn attached(&mut self, name: Vec<u8>, descriptor: u32)
        ensures attaches { self.new.attaches ≡ self.old.attaches }
        ensures name { self.new.name ≡ Some name }
        ensures descriptor { self.new.descriptor ≡ Some descriptor }
        ensures ended { self.new.ended ≡ false }
    {
        self.name = Some(name);
        self.descriptor = Some(descriptor);
        self.ended = false;
    }
}
