// The forms of a night sheet (document 01, "Night sheet").
ghost use Rattle.forms.specs.Form.{FormOne};

// What the fields of a sheet may be. A later form is another such record, not another reader.
#[derive(Clone, Copy)]
pub struct Form {
    pub code: u8,
    pub lastmost: u16,
    pub procedures: u8,
    pub numbers: u8,
    pub perprocedure: u8,
}

pub fn form_one() -> Form
    ensures { FormOne result }
{
    Form {
        code: 1,
        lastmost: 32767,
        procedures: 3,
        numbers: 4,
        perprocedure: 8,
    }
}
