// The calls of a record tray.
ghost use Rattle.std.specs.Prelude.{◌≡◌, [], length, take, drop, slice_set, vec_items, MatchResult};
ghost use Rattle.tray.specs.declared.record_tray.RecordTray.{RecordTray};
ghost use Rattle.tray.specs.Holding.{KeepsRest, Put, emptied};
ghost use Rattle.tray.specs.Records.{record_holds, record_lawful, records_of, RecordKeeps};

use crate::record_tray::RecordTray;
use crate::tray::{Full, Tray};
use crate::triangle::Triangle;

impl RecordTray {
    // An empty tray over the list, whose records stay as they are.
    pub fn new(list: Vec<Triangle>) -> RecordTray
        ensures holds { record_holds result ≡ record { list = []; free = length list.items } }
        ensures list { result.list ≡ list }
    {
        RecordTray { list, held: 0 }
    }

    // The triangles that it holds.
    pub fn triangles(&self) -> &[Triangle]
        ensures { result.now ≡ (record_holds self.now).list }
    {
        &self.list[..self.held]
    }

    // Ends the tray, and hands the whole list back: in front the triangles that it held, and behind them each record as it stood
    // at any time since which none past them was written over.
    pub fn into_list(self) -> Vec<Triangle>
        ensures list { result ≡ self.list }
        ensures held { take (length (record_holds self).list) result.items ≡ (record_holds self).list }
        ensures given { (before : RecordTray) → KeepsRest record_holds RecordKeeps before self → drop (length (record_holds self).list) result.items ≡ drop (length (record_holds self).list) (records_of before) }
    {
        let RecordTray { list, held: _ } = self;
        list
    }
}

impl Tray for RecordTray {
    ghost holds = { record_holds };

    ghost keeps = { RecordKeeps };

    ghost lawful = { record_lawful };

    fn free(&self) -> usize {
        self.list.len() - self.held
    }

    fn held(&self) -> usize {
        self.held
    }

    fn nth(&self, n: usize) -> Option<Triangle> {
        self.triangles().get(n).copied()
    }

    // Writes over the record in the next place, and changes no other.
    fn put(&mut self, triangle: Triangle) -> Result<(), Full>
        ensures put { Put (record_holds self.old) triangle result (record_holds self.new) }
        ensures rest { KeepsRest record_holds RecordKeeps self.old self.new }
        ensures records { MatchResult result (λ _. records_of self.new ≡ slice_set (records_of self.old) (length (record_holds self.old).list) triangle) (λ _. records_of self.new ≡ records_of self.old) }
    {
        let n = self.held;
        if n >= self.list.len() {
            return Err(Full);
        }
        self.list[n] = triangle;
        self.held = n + 1;
        Ok(())
    }

    // Changes no record.
    fn empty(&mut self)
        ensures emptied { record_holds self.new ≡ emptied (record_holds self.old) }
        ensures rest { RecordKeeps 0 self.old self.new }
        ensures records { records_of self.new ≡ records_of self.old }
    {
        self.held = 0;
    }
}
