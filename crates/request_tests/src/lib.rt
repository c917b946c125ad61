#![tactic(auto)]

// Every field of a request at 0, at 1, at its limits, one past them and at the largest 32-bit number.
#[cfg(test)]
mod tests {
    use terms::request::{Request, RequestForm};

    // AREF, kind, product, start, length, MW, preconfirmed mark and price; then the number of the refusal, if it is
    // refused.
    const TABLE: [([u32; 8], Option<u32>); 66] = [
        // AREF
        ([0, 1, 1, 0, 1, 1, 0, 0], Some(9)),
        ([1, 1, 1, 0, 1, 1, 0, 0], None),
        ([u32::MAX, 1, 1, 0, 1, 1, 0, 0], None),
        // kind
        ([1, 0, 1, 0, 1, 1, 0, 0], Some(5)),
        ([1, 2, 1, 0, 1, 1, 0, 0], None),
        ([1, 3, 1, 0, 1, 1, 0, 0], Some(5)),
        ([1, u32::MAX, 1, 0, 1, 1, 0, 0], Some(5)),
        // product
        ([1, 1, 0, 0, 7, 1, 0, 0], Some(5)),
        ([1, 1, 1, 0, 7, 1, 0, 0], None),
        ([1, 1, 2, 0, 7, 1, 0, 0], None),
        ([1, 1, 3, 0, 28, 1, 0, 0], None),
        ([1, 1, 4, 0, 28, 1, 0, 0], Some(5)),
        ([1, 1, u32::MAX, 0, 28, 1, 0, 0], Some(5)),
        // start day
        ([1, 1, 1, 1, 1, 1, 0, 0], None),
        ([1, 1, 1, 400, 1, 1, 0, 0], None),
        ([1, 1, 1, u32::MAX, 1, 1, 0, 0], None),
        // length of daily service
        ([1, 1, 1, 0, 0, 1, 0, 0], Some(6)),
        ([1, 1, 1, 0, 31, 1, 0, 0], None),
        ([1, 1, 1, 0, 32, 1, 0, 0], Some(6)),
        ([1, 1, 1, 0, u32::MAX, 1, 0, 0], Some(6)),
        // length of weekly service
        ([1, 1, 2, 0, 0, 1, 0, 0], Some(6)),
        ([1, 1, 2, 0, 1, 1, 0, 0], Some(6)),
        ([1, 1, 2, 0, 6, 1, 0, 0], Some(6)),
        ([1, 1, 2, 0, 8, 1, 0, 0], Some(6)),
        ([1, 1, 2, 0, 13, 1, 0, 0], Some(6)),
        ([1, 1, 2, 0, 14, 1, 0, 0], None),
        ([1, 1, 2, 0, 15, 1, 0, 0], Some(6)),
        ([1, 1, 2, 0, 20, 1, 0, 0], Some(6)),
        ([1, 1, 2, 0, 21, 1, 0, 0], None),
        ([1, 1, 2, 0, 22, 1, 0, 0], Some(6)),
        ([1, 1, 2, 0, 27, 1, 0, 0], Some(6)),
        ([1, 1, 2, 0, 28, 1, 0, 0], None),
        ([1, 1, 2, 0, 29, 1, 0, 0], Some(6)),
        ([1, 1, 2, 0, 35, 1, 0, 0], Some(6)),
        ([1, 1, 2, 0, u32::MAX, 1, 0, 0], Some(6)),
        // length of monthly service
        ([1, 1, 3, 0, 0, 1, 0, 0], Some(6)),
        ([1, 1, 3, 0, 1, 1, 0, 0], Some(6)),
        ([1, 1, 3, 0, 27, 1, 0, 0], Some(6)),
        ([1, 1, 3, 0, 29, 1, 0, 0], None),
        ([1, 1, 3, 0, 30, 1, 0, 0], None),
        ([1, 1, 3, 0, 31, 1, 0, 0], None),
        ([1, 1, 3, 0, 32, 1, 0, 0], Some(6)),
        ([1, 1, 3, 0, u32::MAX, 1, 0, 0], Some(6)),
        // MW
        ([1, 1, 1, 0, 1, 0, 0, 0], Some(7)),
        ([1, 1, 1, 0, 1, 2, 0, 0], None),
        ([1, 1, 1, 0, 1, 20_000, 0, 0], None),
        ([1, 1, 1, 0, 1, 20_001, 0, 0], Some(7)),
        ([1, 1, 1, 0, 1, u32::MAX, 0, 0], Some(7)),
        // preconfirmed mark
        ([1, 1, 1, 0, 1, 1, 1, 0], None),
        ([1, 1, 1, 0, 1, 1, 2, 0], Some(5)),
        ([1, 1, 1, 0, 1, 1, u32::MAX, 0], Some(5)),
        // price
        ([1, 1, 1, 0, 1, 1, 0, 1], None),
        ([1, 1, 1, 0, 1, 1, 0, 1_000_000], None),
        ([1, 1, 1, 0, 1, 1, 0, 1_000_001], Some(8)),
        ([1, 1, 1, 0, 1, 1, 0, u32::MAX], Some(8)),
        // the order of refusals, one fault fewer at each row
        ([0, 0, 0, 0, 0, 0, 0, 0], Some(5)),
        ([0, 3, 4, 0, 0, 0, 2, 1_000_001], Some(5)),
        ([0, 1, 4, 0, 0, 0, 2, 1_000_001], Some(5)),
        ([0, 1, 1, 0, 0, 0, 2, 1_000_001], Some(5)),
        ([0, 1, 1, 0, 0, 0, 1, 1_000_001], Some(6)),
        ([0, 1, 1, 0, 1, 0, 1, 1_000_001], Some(7)),
        ([0, 1, 1, 0, 1, 1, 1, 1_000_001], Some(8)),
        ([0, 1, 1, 0, 1, 1, 1, 1_000_000], Some(9)),
        ([1, 1, 1, 0, 1, 1, 1, 1_000_000], None),
        // every field at its largest
        ([u32::MAX; 8], Some(5)),
        ([u32::MAX, 2, 3, u32::MAX, 31, 20_000, 1, 1_000_000], None),
    ];

    fn form_of(request: &Request) -> RequestForm {
        RequestForm {
            aref: request.aref,
            kind: u32::from(request.kind),
            product: u32::from(request.product),
            start: request.start,
            length: request.length,
            mw: request.mw,
            preconfirmed: u32::from(request.preconfirmed),
            price: request.price,
        }
    }

    // What is checked holds the numbers of the form.
    #[test]
    fn every_field_at_its_limits(rt: HostRuntime) {
        for (fields, refused) in &TABLE {
            let [aref, kind, product, start, length, mw, preconfirmed, price] = *fields;
            let form = RequestForm {
                aref,
                kind,
                product,
                start,
                length,
                mw,
                preconfirmed,
                price,
            };
            let answer = form
                .check()
                .map(|checked| form_of(&checked.into_request()))
                .map_err(u32::from);
            assert_eq!(rt; answer, refused.map_or(Ok(form), Err), "at {fields:?}");
        }
    }
}
