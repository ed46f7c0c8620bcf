//! The script of the page of a plan.

/// The script of the page of a plan, as a browser runs it. It only marks what stands there already. Without it the page says the same.
pub(crate) const PLAN_SCRIPT: &str = r#"'use strict';
/* The script of a plan's page. A row that names links and nodes has them marked in the drawing, while it is pointed at or pressed.
   It forms no text and no HTML: without it the page says the same. */
(function () {
  /** All elements inside of one that fit a selector, as a list. */
  const all = (where, selector) => Array.from(where.querySelectorAll(selector));
  /** The parts of the drawings with the numbers that an attribute of a row lists. */
  const parts = (row, attribute, part) => (row.dataset[attribute] || '').split(',').filter(Boolean)
    .flatMap(number => all(document, 'svg.net .' + part + '[data-' + part + '="' + Number(number) + '"]'));
  /** Marks a row and the links and nodes that it names, or takes the mark away. */
  function mark(row, isMarked) {
    row.classList.toggle('lit', isMarked);
    parts(row, 'links', 'link').concat(parts(row, 'nodes', 'node')).forEach(part => part.classList.toggle('lit', isMarked));
  }
  /** Whether the button of a row is pressed. */
  const isHeld = row => all(row, 'button.show').some(button => button.getAttribute('aria-pressed') === 'true');
  /** Marks all rows that are held once more, since another row may have taken a mark of theirs away. */
  const renew = () => rows.filter(isHeld).forEach(row => mark(row, true));
  /** Has a row mark what it names. */
  function join(row) {
    row.addEventListener('mouseenter', () => mark(row, true));
    row.addEventListener('mouseleave', () => { mark(row, isHeld(row)); renew(); });
    all(row, 'button.show').forEach(button => button.addEventListener('click', () => {
      button.setAttribute('aria-pressed', String(!isHeld(row)));
      mark(row, isHeld(row));
      renew();
    }));
  }
  document.documentElement.classList.add('js');
  const rows = all(document, 'tr[data-links],tr[data-nodes]');
  rows.forEach(join);
}());
"#;
