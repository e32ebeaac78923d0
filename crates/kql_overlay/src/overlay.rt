ghost use Rattle.std.specs.Prelude.{◌≡◌, ◌↔◌, IsSome, IsTrue, Some, map};
ghost use Rattle.std.specs.Bool.{OnFalse, OnTrue};
ghost use Rattle.kql_outside.specs.Told.{file_of};
ghost use Rattle.kql_outside.specs.Memory.{path_and_bytes};
ghost use Rattle.kql_overlay.specs.Above.{files_above};

use crate::course::Course;
use kql_outside::{CleanShelf, Failed, Shelf};

/// Files in memory above those of another shelf: of a path that both have, the file in memory counts.
#[derive(Drop)]
pub struct Overlay<F: Shelf> {
    above: CleanShelf,
    below: F,
    reads_above: bool,
    course: Course,
    starts: u64,
}

impl<F: Shelf> Overlay<F> {
    /// These files above those of a shelf. What the shelf below has started is still started.
    pub fn new(files: Vec<(String, Vec<u8>)>, below: F) -> Overlay<F>
        ensures files { ⟦<Overlay<F> as Shelf>⟧.files result ≡ files_above (map path_and_bytes files.items) (F.files below) }
        ensures rest { ⟦<Overlay<F> as Shelf>⟧.rest result ≡ F.rest below }
        ensures faults { ⟦<Overlay<F> as Shelf>⟧.faults result ≡ F.faults below }
        ensures calls { ⟦<Overlay<F> as Shelf>⟧.calls result ≡ Some (record { failed = 0; later = 0 }) }
        ensures starts { ⟦<Overlay<F> as Shelf>⟧.starts result ≡ Some 0 }
    {
        Overlay {
            above: CleanShelf::new(files),
            below,
            reads_above: false,
            course: Course::new(),
            starts: 0,
        }
    }
}

// Starts a file in memory, where there is one.
fn start_above(above: &mut CleanShelf, path: &str) -> bool
    ensures files { above.new.files ≡ above.old.files }
    ensures found { IsTrue result ↔ IsSome (file_of above.old.files path.now) }
    ensures started { OnTrue result (Some above.new.rest ≡ file_of above.old.files path.now) }
    ensures missing { OnFalse result (above.new.rest ≡ above.old.rest) }
{
    match above.start(path) {
        Ok(there) => there,
        Err(_) => false,
    }
}

impl<F: Shelf> Shelf for Overlay<F> {
    ghost use Rattle.std.specs.Prelude.{Some, if◌then◌else◌};
    ghost use Rattle.kql_overlay.specs.Above.{files_above};

    ghost files = { λ s. files_above s.above.files (F.files s.below) };

    ghost rest = { λ s. if s.reads_above then Some s.above.rest else F.rest s.below };

    ghost faults = { λ s. F.faults s.below };

    ghost calls = { λ s. Some s.course };

    ghost starts = { λ s. Some s.starts };

    #[tactic(auto, using(crate::proofs::AboveFacts::above_facts))]
    fn start(&mut self, path: &str) -> Result<bool, Failed> {
        self.starts = self.starts.saturating_add(1);
        if start_above(&mut self.above, path) {
            self.course.pass();
            self.reads_above = true;
            return Ok(true);
        }
        match self.below.start(path) {
            Ok(there) => {
                self.course.pass();
                if there {
                    self.reads_above = false;
                }
                Ok(there)
            }
            Err(failed) => {
                self.course.fail();
                Err(failed)
            }
        }
    }

    fn read(&mut self, buf: &mut [u8]) -> Result<usize, Failed> {
        let read = if self.reads_above {
            self.above.read(buf)
        } else {
            self.below.read(buf)
        };
        match read {
            Ok(count) => {
                self.course.pass();
                Ok(count)
            }
            Err(failed) => {
                self.course.fail();
                Err(failed)
            }
        }
    }
}
