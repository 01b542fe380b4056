// A line of the table and its cells.
ghost use Rattle.std.specs.Prelude.{◌≡◌};
ghost use Rattle.std.specs.Option.{option_map};
ghost use Rattle.vectors.specs.Table.{at_tab, cells};

// A dossier in hexadecimal digits, and the line that is expected for it.
#[derive(Drop)]
pub struct Row<'a> {
    pub name: &'a str,
    pub digits: &'a str,
    pub expected: &'a str,
}

// What stands before the first tab, and what after it; None where there is no tab.
fn cut(text: &str) -> Option<(&str, &str)>
    ensures { option_map (λ p. (p.0.now, p.1.now)) result ≡ at_tab text.now }
{
    text.split_once('\t')
}

impl<'a> Row<'a> {
    // The row that a line writes, its cells apart by tabs; None where there are fewer than three.
    pub fn read(line: &'a str) -> Option<Row<'a>>
        ensures { option_map (λ row. (row.name.now, row.digits.now, row.expected.now)) result ≡ cells line.now }
    {
        let (name, rest) = cut(line)?;
        let (digits, expected) = cut(rest)?;
        Some(Row {
            name,
            digits,
            expected,
        })
    }
}
