// The rules 10, 11, 12 and 14: each place that breaks one.
ghost use Rattle.std.specs.Prelude.{◌≡◌};
ghost use Rattle.st80_view.specs.Findings.{place_of, rule_of};

use crate::counting::{Part, fields_of};
use crate::view::View;
use long_names::{Name, Rec, Value, Values};
use std::alloc::{AllocError, Global};

/// A name of the machine's state.
#[derive(Clone, Copy, Debug, PartialEq, Eq)]
pub enum StateRole {
    Display,
    Input,
    Timer,
}

/// A place of an image that breaks one of the rules 10, 11, 12 and 14.
#[derive(Clone, Copy, Debug, PartialEq, Eq)]
pub enum Finding {
    /// Rule 10: a word of an object holds a name that is no object's.
    Lost {
        holder: Name,
        part: Part,
        name: Name,
    },
    /// Rule 11: an object states another count than the words that hold it.
    Miscounted {
        name: Name,
        stated: u64,
        counted: u64,
    },
    /// Rule 11: nothing holds an object that isn't known.
    Unheld {
        name: Name,
    },
    /// Rule 12: an object that every image has isn't there.
    Missing {
        name: Name,
    },
    /// Rule 14: a name of the state is no object's.
    StateLost {
        role: StateRole,
        name: u32,
    },
}

impl Finding {
    /// The rule that breaks.
    pub fn rule(&self) -> u8
        ensures { result ≡ rule_of self.now }
    {
        match self {
            Finding::Lost { .. } => 10,
            Finding::Miscounted { .. } | Finding::Unheld { .. } => 11,
            Finding::Missing { .. } => 12,
            Finding::StateLost { .. } => 14,
        }
    }

    /// The place at which the program would tell it: a name.
    pub fn place(&self) -> u64
        ensures { result ≡ place_of self.now }
    {
        match self {
            Finding::Lost { holder, .. } => u64::from(holder.get()),
            Finding::Miscounted { name, .. }
            | Finding::Unheld { name }
            | Finding::Missing { name } => u64::from(name.get()),
            Finding::StateLost { name, .. } => u64::from(*name),
        }
    }
}

impl View {
    /// Each place that breaks one of the rules 10, 11, 12 and 14: by rising rule, and within one by rising name.
    pub fn findings(&self, alloc: Global) -> Result<Vec<Finding>, AllocError> {
        let mut findings = Vec::new(alloc);
        for rec in self.image.objects.all() {
            self.find_lost(&mut findings, rec)?;
        }
        self.find_miscounted(alloc, &mut findings)?;
        for name in Name::known() {
            if !self.image.is_there(name) {
                findings.push(Finding::Missing { name })?;
            }
        }
        self.find_state(&mut findings)?;
        Ok(findings)
    }

    fn find_lost(&self, findings: &mut Vec<Finding>, rec: &Rec) -> Result<(), AllocError> {
        if !self.image.is_there(rec.class) {
            findings.push(Finding::Lost {
                holder: rec.name,
                part: Part::Class,
                name: rec.class,
            })?;
        }
        match fields_of(&rec.body) {
            Some(fields) => self.find_lost_fields(findings, rec, fields),
            None => Ok(()),
        }
    }

    fn find_lost_fields(
        &self,
        findings: &mut Vec<Finding>,
        rec: &Rec,
        fields: &Values,
    ) -> Result<(), AllocError> {
        for i in 0..fields.len() {
            if let Value::Ref(name) = *fields.item(i) {
                if !self.image.is_there(name) {
                    findings.push(Finding::Lost {
                        holder: rec.name,
                        part: crate::counting::part_of(&rec.body, i),
                        name,
                    })?;
                }
            }
        }
        Ok(())
    }

    fn find_miscounted(
        &self,
        alloc: Global,
        findings: &mut Vec<Finding>,
    ) -> Result<(), AllocError> {
        let counts = self.words_held(alloc)?;
        for (rec, counted) in self.image.objects.all().iter().zip(counts.iter()) {
            if rec.count != *counted {
                findings.push(Finding::Miscounted {
                    name: rec.name,
                    stated: rec.count,
                    counted: *counted,
                })?;
            } else if *counted == 0 && !rec.name.is_known() {
                findings.push(Finding::Unheld { name: rec.name })?;
            }
        }
        Ok(())
    }

    fn find_state(&self, findings: &mut Vec<Finding>) -> Result<(), AllocError> {
        let state = self.image.head.state;
        self.find_role(findings, StateRole::Display, state.display)?;
        self.find_role(findings, StateRole::Input, state.input)?;
        self.find_role(findings, StateRole::Timer, state.timer)
    }

    fn find_role(
        &self,
        findings: &mut Vec<Finding>,
        role: StateRole,
        name: u32,
    ) -> Result<(), AllocError> {
        if !self.is_state_name(name) {
            findings.push(Finding::StateLost { role, name })?;
        }
        Ok(())
    }

    /// Whether a word of the state is 0 or the name of an object.
    fn is_state_name(&self, word: u32) -> bool {
        match Name::new(word) {
            Some(name) => self.image.is_there(name),
            None => word == 0,
        }
    }
}
