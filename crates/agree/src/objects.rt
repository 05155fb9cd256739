// The objects of a run, each under its name.
use choices::AnyBank;
use forms::{Form, FormFault, Head, Row};
use std::alloc::{AllocError, Global};
use std::collections::BTreeMap;
use texts::Counts;

// A form's rows and head, which a form borrows.
#[derive(Drop)]
pub struct FormText {
    pub rows: Vec<Row>,
    pub head: Head,
}

impl FormText {
    // Fills a form with the rows and the head.
    pub fn fill<'a>(&'a self, form: &mut Form<'a, 'a>) -> Result<(), FormFault> {
        form.fill(self.rows.as_slice(), &self.head)
    }

    // How much the form that they make has.
    pub fn counts(&self) -> Result<Counts, FormFault> {
        let mut form = Form::give_zero();
        self.fill(&mut form)?;
        Ok(Counts::of(&form))
    }
}

// What a name can stand for.
#[derive(Drop)]
pub enum Object {
    Form(FormText),
    Bank(AnyBank),
}

// The named objects, all kinds in one namespace.
#[derive(Drop)]
pub struct Objects {
    table: BTreeMap<String, Object>,
}

impl Objects {
    // No objects.
    pub fn new(heap: Global) -> Objects {
        Objects {
            table: BTreeMap::new(heap),
        }
    }

    // Gives a name an object, in place of any that it had.
    pub fn define(&mut self, heap: Global, name: &str, object: Object) -> Result<(), AllocError> {
        let key = String::from_str(heap, name)?;
        self.table.insert(key, object)?;
        Ok(())
    }

    // The object of a name. To read and to change are two, as in the library: no function is over both borrows.
    pub fn find(&self, name: &str) -> Option<&Object> {
        self.table.get(name)
    }

    // The object of a name, to be changed.
    pub fn find_mut(&mut self, name: &str) -> Option<&mut Object> {
        self.table.get_mut(name)
    }
}
