//! The accepted calls that change which tasks map an object.

ghost use Rattle.std.specs.Prelude.{◌≡◌, ◌∷◌, List, IsTrue, None};
ghost use Rattle.kern_ids.specs.declared.entries.Entry.{Entry};
ghost use Rattle.kern_ids.specs.declared.calls.Call.TheVariants.{Map, Attach};
ghost use Rattle.kernel_model.specs.Answers.{answer, refusal};
ghost use Rattle.kernel_model.specs.Histories.{fits};
ghost use Rattle.kernel_tables.specs.Values.{values, entry_of};
ghost use Rattle.kernel_tables.specs.Stands.{Stands};

use crate::charging::{burden, relieve};
use crate::parts::Parts;
use kern_ids::ids::{ObjId, ThreadId};
use kern_ids::replies::Reply;
use kernel_model::events::task_of;

impl Parts {
    /// Map, where it is not refused.
    pub(crate) fn map(&mut self, who: ThreadId, o: ObjId) -> Reply
        ghost past: { List Entry }
        requires stands { Stands (values self.old) past }
        requires fits { IsTrue (fits self.old.boot who (Map o)) }
        requires accepted { refusal self.old.boot past who (Map o) ≡ None }
        ensures reply { result ≡ answer self.old.boot past who (Map o) }
        ensures stands { Stands (values self.new) (entry_of who (Map o) result ∷ past) }
        ensures boot { self.new.boot ≡ self.old.boot }
    {
        self.boot.valid();
        let t = task_of(&self.boot, who).unwrap();
        self.objects.table.map(o, t);
        Reply::Mapped
    }

    /// Attach, where it is not refused.
    pub(crate) fn attach(&mut self, who: ThreadId, o: ObjId) -> Reply
        ghost past: { List Entry }
        requires stands { Stands (values self.old) past }
        requires fits { IsTrue (fits self.old.boot who (Attach o)) }
        requires accepted { refusal self.old.boot past who (Attach o) ≡ None }
        ensures reply { result ≡ answer self.old.boot past who (Attach o) }
        ensures stands { Stands (values self.new) (entry_of who (Attach o) result ∷ past) }
        ensures boot { self.new.boot ≡ self.old.boot }
    {
        self.boot.valid();
        self.objects.table.is_object(o);
        let t = task_of(&self.boot, who).unwrap();
        let charge = self.objects.charge(o);
        let before = self.objects.table.owner(o);
        relieve(&mut self.tasks.ledgers, before, &charge);
        self.objects.table.attach(o, t);
        let after = self.objects.table.owner(o);
        burden(&mut self.tasks.ledgers, after, &charge);
        Reply::Attached
    }
}
